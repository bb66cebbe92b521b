//! The linear program of a node of the search for the best deterministic mechanism, and what its certificates say of
//! deterministic mechanisms.
#![tactic(auto)]

mod lottery;
mod program;

pub use lottery::first_lottery;
pub use program::node_program;
