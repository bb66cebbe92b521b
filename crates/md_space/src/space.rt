//! The space of the profiles of a setting.
ghost use Rattle.std.specs.Prelude.{◌≡◌, ℕ, ◌+◌, ◌*◌, ◌<◌, ◌≤◌, ◌≢◌, ◌↔◌, Some, None, IsTrue, IfOk, IfErr, MatchOption, All, length, slice_index, ◌==◌, nat_lt};
ghost use Rattle.std.specs.List.{list_any};
ghost use Rattle.md_space.specs.Profiles.{profile_count, IsProfile, rank_of, profile_at, replaced};
ghost use Rattle.md_space.specs.Strides.{strides_of};
ghost use Rattle.md_space.specs.Sizes.{IsSpace, refusal_of};

use crate::SpaceRefusal;
use std::alloc::{AllocError, Global};
use std::marker::Model;

/// The most agents of a space.
pub const MAX_AGENTS: usize = 6;

/// The most types of one agent.
pub const MAX_TYPES: u8 = 16;

/// The most profiles of a space.
pub const MAX_PROFILES: u32 = 1024;

/// The profiles of some agents, of which contracts see the list of the numbers of types, by agent.
#[derive(Drop)]
pub struct Space {
    types: Vec<u8>,
    // how far apart two profiles are that differ by one type of an agent
    strides: Vec<u32>,
    profiles: u32,
}

impl Model for Space {
    ghost use Rattle.std.specs.Prelude.{List, ℕ};
    ghost use Rattle.md_space.specs.Strides.{IsLaidOut};

    ghost Value = { List ℕ };

    ghost view = { λ s. s.types.items };

    ghost invariant = { λ s. IsLaidOut s.types.items s.strides.items s.profiles };
}

impl Space {
    /// The space of agents with these numbers of types.
    pub fn new(alloc: Global, types: &[u8]) -> Result<Space, SpaceRefusal>
        ensures ok { IfOk result (λ space. space ≡ types.now) }
        ensures accepted { IfOk result (λ _. refusal_of types.now ≡ None) }

        // Memory is asked for once everything else is found in order.
        ensures refused { IfErr result (λ e. e ≢ SpaceRefusal.Memory → refusal_of types.now ≡ Some e) }
        ensures memory { result ≡ Err SpaceRefusal.Memory → refusal_of types.now ≡ None }
    {
        if types.is_empty() || any_is_zero(types) {
            return Err(SpaceRefusal::Empty);
        }
        if types.len() > MAX_AGENTS || any_is_large(types) {
            return Err(SpaceRefusal::TooManyTypes);
        }
        let Some(profiles) = profiles_within(types) else {
            return Err(SpaceRefusal::TooManyProfiles);
        };
        let Ok(strides) = strides(alloc, types, profiles) else {
            return Err(SpaceRefusal::Memory);
        };
        let Ok(types) = Vec::from_slice(alloc, types) else {
            return Err(SpaceRefusal::Memory);
        };
        Ok(Space {
            types,
            strides,
            profiles,
        })
    }

    /// The number of profiles.
    pub fn profiles(&self) -> u32
        ensures count { result ≡ profile_count self.now }
        ensures space { IsSpace self.now }
    {
        self.profiles
    }

    /// The number of agents.
    pub fn agents(&self) -> u8
        ensures count { result ≡ length self.now }
        ensures space { IsSpace self.now }
    {
        self.types.len() as u8
    }

    /// The number of types of an agent.
    pub fn types(&self, agent: u8) -> u8
        requires { agent < length self.now }
        ensures count { result ≡ slice_index self.now agent }
        ensures space { IsSpace self.now }
    {
        self.types[agent as usize]
    }

    /// The rank of a profile.
    pub fn rank(&self, reports: &[u8]) -> u32
        requires { IsProfile self.now reports.now }
        ensures value { result ≡ rank_of self.now reports.now }
        ensures below { result < profile_count self.now }
        ensures inverse { profile_at self.now result ≡ reports.now }
    {
        let mut rank = 0;
        for (agent, report) in reports.iter().enumerate() {
            rank += u32::from(*report) * self.stride(agent);
        }
        rank
    }

    /// The report of an agent at the profile of a rank.
    pub fn report(&self, rank: u32, agent: u8) -> u8
        requires rank_in { rank < profile_count self.now }
        requires agent_in { agent < length self.now }
        ensures value { result ≡ slice_index (profile_at self.now rank) agent }
        ensures below { result < slice_index self.now agent }
        ensures profile { IsProfile self.now (profile_at self.now rank) }
        ensures inverse { rank_of self.now (profile_at self.now rank) ≡ rank }
    {
        (rank / self.stride(agent as usize) % u32::from(self.types(agent))) as u8
    }

    /// The rank of the profile of a rank with the report `b` at an agent.
    pub fn replace(&self, rank: u32, agent: u8, b: u8) -> u32
        requires rank_in { rank < profile_count self.now }
        requires agent_in { agent < length self.now }
        requires report_in { b < slice_index self.now agent }
        ensures value { result ≡ rank_of self.now (replaced (profile_at self.now rank) agent b) }
        ensures below { result < profile_count self.now }
        ensures profile { profile_at self.now result ≡ replaced (profile_at self.now rank) agent b }
    {
        let stride = self.stride(agent as usize);
        rank - u32::from(self.report(rank, agent)) * stride + u32::from(b) * stride
    }

    // How far apart two profiles are that differ by one type of an agent.
    fn stride(&self, agent: usize) -> u32
        requires { agent < length self.now }
        ensures value { result ≡ slice_index (strides_of self.now) agent }
        ensures some { 0 < result }
        ensures space { IsSpace self.now }
    {
        self.strides[agent]
    }
}

fn any_is_zero(types: &[u8]) -> bool
    ensures { result ≡ list_any (λ n. n == 0) types.now }
{
    types.iter().any(|n| *n == 0)
}

fn any_is_large(types: &[u8]) -> bool
    ensures { result ≡ list_any (λ n. nat_lt 16 n) types.now }
{
    types.iter().any(|n| *n > MAX_TYPES)
}

// The number of profiles, or None where there are too many.
fn profiles_within(types: &[u8]) -> Option<u32>
    requires some_type { All (λ n. 0 < n) types.now }
    requires few_types { All (λ n. n ≤ 16) types.now }
    ensures { MatchOption result (1024 < profile_count types.now) (λ n. (n ≡ profile_count types.now) × (n ≤ 1024)) }
{
    let mut profiles: u32 = 1;
    for n in types {
        profiles *= u32::from(*n);
        if profiles > MAX_PROFILES {
            return None;
        }
    }
    Some(profiles)
}

fn strides(alloc: Global, types: &[u8], profiles: u32) -> Result<Vec<u32>, AllocError>
    requires count { profiles ≡ profile_count types.now }
    requires some_type { All (λ n. 0 < n) types.now }
    ensures { IfOk result (λ strides. strides.items ≡ strides_of types.now) }
{
    let mut strides = Vec::new(alloc);
    let mut rest = profiles;
    for n in types {
        rest /= u32::from(*n);
        strides.push(rest)?;
    }
    Ok(strides)
}
