//! The profile at which least is paid.

use md_num::Frac;

/// The profile at which all agents together pay least, the first of several.
#[derive(Clone, Copy)]
pub struct Deficit {
    /// The rank of the profile.
    pub rank: u32,
    /// What they pay there. It is negative where there is a deficit.
    pub payments: Frac,
}
