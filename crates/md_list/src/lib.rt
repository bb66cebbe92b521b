//! Lists of bids from best to worst, the rule that each of them is, and when a list is the best one: definitions and laws, which the
//! contracts of other crates cite.
#![tactic(auto)]

mod ranked;
mod won;

pub use ranked::{Averages, BestList, ListAnswer, Ranked};
pub use won::Won;
