//! General settings and auctions solved: an optimal mechanism with its value and bound, or why there is none.
#![tactic(auto)]

mod auctions;
mod general;
mod solving;

pub use general::answer_of;
pub use solving::solve;
