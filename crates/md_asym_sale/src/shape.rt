//! How many agents, types and profiles a setting has, and at which outcome of a sale an agent has the item.
ghost use Rattle.std.specs.Prelude.{◌≡◌, ◌+◌, ◌<◌, ◌≤◌, slice_index};
ghost use Rattle.md_space.specs.Profiles.{profile_count, profile_at};
ghost use Rattle.md_setting.specs.Meaning.{agent_count, sizes_of};
ghost use Rattle.md_setting.specs.Shaped.{IsShaped};

use md_setting::Setting;

/// The number of agents.
pub fn agents(setting: &Setting) -> u8
    ensures count { result ≡ agent_count setting.now }
    ensures some { 0 < result }
    ensures few { result ≤ 6 }
    ensures shaped { IsShaped setting.now }
{
    setting.space().agents()
}

/// The number of types of an agent.
pub(crate) fn types(setting: &Setting, agent: u8) -> u8
    requires { agent < agent_count setting.now }
    ensures count { result ≡ slice_index (sizes_of setting.now) agent }
    ensures few { result ≤ 16 }
{
    setting.space().types(agent)
}

/// The number of profiles.
pub fn profiles(setting: &Setting) -> u32
    ensures count { result ≡ profile_count (sizes_of setting.now) }
    ensures few { result ≤ 1024 }
    ensures shaped { IsShaped setting.now }
{
    setting.space().profiles()
}

/// The type of an agent at the profile of a rank.
pub fn type_at(setting: &Setting, rank: u32, agent: u8) -> u8
    requires rank_in { rank < profile_count (sizes_of setting.now) }
    requires agent_in { agent < agent_count setting.now }
    ensures value { result ≡ slice_index (profile_at (sizes_of setting.now) rank) agent }
    ensures below { result < slice_index (sizes_of setting.now) agent }
{
    setting.space().report(rank, agent)
}

/// The outcome at which an agent has the item.
pub(crate) fn outcome_of(agent: u8) -> u32
    ensures { result ≡ agent + 1 }
{
    u32::from(agent) + 1
}
