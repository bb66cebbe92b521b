//! The lists of counts of a symmetric auction: how many bidders have each kind of value.
//!
//! The lists are ranked in ascending lexicographic order: for two bidders with two kinds of values the order is
//! (0, 2), (1, 1), (2, 0). The weight of a list is the weight of all profiles in which the kinds come so often.
#![tactic(auto)]

mod counts;
mod refusal;
mod ways;
mod weights;

pub use counts::Counts;
pub use refusal::CountsRefusal;
