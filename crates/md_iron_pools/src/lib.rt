//! Pools of an auction's values: neighbouring values that win equally often where an auction is best (Myerson, "Optimal
//! auction design", 1981), with the interim odds and payments that follow.
#![tactic(auto)]

mod chords;
mod cut_sets;
mod gaps;
mod odds;
mod pooling;
mod pools;
mod sums;

pub use cut_sets::{begins, cuts, values_from};
pub use gaps::{Chord, Gap, chord_gap, chord_of};
pub use odds::{interim, share_of_all};
pub use pooling::pool;
pub use pools::{AuctionPools, Pool};
pub use sums::weight_from;
