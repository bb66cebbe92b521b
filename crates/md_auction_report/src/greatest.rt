//! The condition of which most is missed.

use md_num::Frac;
use md_reduced::ReducedCondition;

/// Of some conditions the one of which most is missed, the first of several.
#[derive(Clone, Copy)]
pub struct Greatest {
    /// The condition.
    pub condition: ReducedCondition,
    /// What is missed of it: what a bidder gains by telling another value, or what it gets less than nothing. It is negative
    /// where there is room.
    pub amount: Frac,
}
