//! Why there is no space of profiles for a list of sizes.

use thiserror::Error;

/// The first reason, in this order, for which a list of sizes is refused.
#[derive(Debug, Clone, Copy, Error)]
pub enum SpaceRefusal {
    /// There is no agent, or an agent has no type.
    #[error("an agent or a type is missing")]
    Empty,
    /// There are more than 6 agents, or an agent has more than 16 types.
    #[error("too many agents or types")]
    TooManyTypes,
    /// There are more than 1,024 profiles.
    #[error("too many profiles")]
    TooManyProfiles,
    /// There is no memory left.
    #[error("out of memory")]
    Memory,
}
