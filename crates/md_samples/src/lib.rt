//! Builders of small settings and of words, for the tests of other crates.
#![tactic(auto)]

mod lists;
mod sample;
mod shared;

pub use lists::words;
pub use sample::{SampleAgent, setting};
pub use shared::sale;
