//! Rows of whole numbers in least terms: a row is combined with another one, and what all its numbers and its denominator have in common is divided out. Nothing here knows of a table.
//! A divisor is first guessed from what the two rows are made of; a row that it does not divide is written anew by a smaller one.
#![tactic(auto)]

mod candidates;
mod combination;
mod halves;
mod least_terms;
mod reach;
mod short;
mod sizes;
mod witnesses;

pub use combination::{Combination, LeastRow};
pub use least_terms::{exact_den, reduce};
pub use sizes::row_size;
pub use witnesses::Witnesses;
