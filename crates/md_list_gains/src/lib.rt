//! What the values of a group weigh, gain and bring in welfare: the sums from which a list of bids is made and checked.
#![tactic(auto)]

mod gains;
mod sums;

pub use gains::places;
pub use sums::{Sums, between, more_benefit, more_gain};
