//! The reduced program of a symmetric auction: a linear program over the interim odds and payments of its values, with the
//! conditions on truth and on taking part, and a cut for each of some sets of values, which Border's conditions give.
#![tactic(auto)]

mod condition;
mod costs;
mod interim;
mod names;
mod reduced;
mod rows;
mod terms;

pub use condition::{ReducedCondition, condition_at, row_count};
pub use interim::interim_of;
pub use names::row_name;
pub use reduced::{program, program_for};
