//! Sales of one item to bidders who differ: general settings with an outcome that keeps the item and one for each agent, at
//! which the agent has it. Their program has the interim odds and payments of each pair of an agent and a type as columns,
//! and cuts for sets of pairs as rows.
#![tactic(auto)]

mod condition;
mod costs;
mod pairs;
mod products;
mod rows;
mod sale;
mod sale_program;
mod shape;
mod sides;
mod terms;
mod worth;

pub use condition::row_count;
pub use pairs::{Pair, pair_at, pair_count, pair_number};
pub use sale::is_sale;
pub use sale_program::program;
pub use shape::{agents, profiles, type_at};
pub use sides::{has_pair, right_side};
pub use worth::{marginal_at, surplus_at};
