//! The condition of which most is missed.

use md_mech::Condition;
use md_num::Frac;

/// Of some conditions the one of which most is missed, the first of several.
#[derive(Clone, Copy)]
pub struct Worst {
    /// The condition.
    pub condition: Condition,
    /// What is missed of it, at its profile or given its type: what a report gains, what an agent gets less than it has outside,
    /// or what is paid less than nothing. It is negative where there is room.
    pub shortfall: Frac,
}
