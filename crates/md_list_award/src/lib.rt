//! Who gets a slot by a list of bids, and what each of them pays.
#![tactic(auto)]

mod amounts;
mod awarding;
mod bids;
mod payments;
mod places;

pub use awarding::award;
