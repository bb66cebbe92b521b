//! Profiles of a setting: each agent has one of its types, and the profiles are ranked.
//!
//! The agents and the types of each agent are numbered from 0. Profiles are ranked in mixed radix,
//! with the last agent changing fastest: for two agents with two types each the order is
//! (0, 0), (0, 1), (1, 0), (1, 1).
#![tactic(auto)]

mod refusal;
mod space;

pub use refusal::SpaceRefusal;
pub use space::{MAX_AGENTS, MAX_PROFILES, MAX_TYPES, Space};
