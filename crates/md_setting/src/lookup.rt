//! The numbers of a setting at an agent, a profile and an outcome.
ghost use Rattle.std.specs.Prelude.{◌≡◌, ◌<◌, [], length, slice_index, slice_index_or, None};
ghost use Rattle.md_math.specs.Lists.{number_at};
ghost use Rattle.md_space.specs.Profiles.{profile_count, profile_at};
ghost use Rattle.md_setting.specs.Setting.{written, written_agent, lists_of};
ghost use Rattle.md_setting.specs.Meaning.{agent_at, agent_count, outcome_count, sizes_of, utilities_by, utility_of, outside_of};
ghost use Rattle.md_setting.specs.Shaped.{IsListed};

use crate::{RawAgent, RawSetting};
use md_space::Space;

/// The agent at a place.
#[tactic(auto, using(crate::proofs::Lookups::lookups))]
pub(crate) fn agent_in(raw: &RawSetting, agent: usize) -> &RawAgent
    requires { agent < agent_count (written raw.now) }
    ensures { written_agent result.now ≡ agent_at (written raw.now) agent }
{
    &raw.agents[agent]
}

#[tactic(auto, using(crate::proofs::Lookups::lookups))]
fn row_at(rows: &[Vec<i64>], place: usize) -> &[i64]
    requires { place < length (lists_of rows.now) }
    ensures { result.now ≡ slice_index_or (lists_of rows.now) place [] }
{
    &rows[place]
}

// The utilities of an agent, by outcome, where the profile of a rank has the true types.
fn utilities_in<'r>(raw: &'r RawSetting, space: &Space, agent: u8, rank: u32) -> &'r [i64]
    requires listed { IsListed (written raw.now) }
    requires sizes { space.now ≡ sizes_of (written raw.now) }
    requires agent_in { agent < agent_count (written raw.now) }
    requires rank_in { rank < profile_count (sizes_of (written raw.now)) }
    ensures value { result.now ≡ utilities_by (agent_at (written raw.now) agent).at (agent_at (written raw.now) agent).utility rank (slice_index (profile_at (sizes_of (written raw.now)) rank) agent) }
    ensures one_each { length result.now ≡ outcome_count (written raw.now) }
{
    let found = agent_in(raw, agent as usize);
    match &found.at {
        Some(rows) => row_at(rows, rank as usize),
        None => row_at(&found.utility, space.report(rank, agent) as usize),
    }
}

/// The utility of an agent at an outcome where the profile of a rank has the true types.
pub(crate) fn utility_in(
    raw: &RawSetting,
    space: &Space,
    agent: u8,
    rank: u32,
    outcome: usize,
) -> i64
    requires listed { IsListed (written raw.now) }
    requires sizes { space.now ≡ sizes_of (written raw.now) }
    requires agent_in { agent < agent_count (written raw.now) }
    requires rank_in { rank < profile_count (sizes_of (written raw.now)) }
    requires outcome_in { outcome < outcome_count (written raw.now) }
    ensures { result ≡ utility_of (written raw.now) agent (profile_at (sizes_of (written raw.now)) rank) outcome }
{
    utilities_in(raw, space, agent, rank)[outcome]
}

/// What a type of an agent has without taking part.
pub(crate) fn outside_in(raw: &RawSetting, agent: usize, kind: usize) -> i64
    requires listed { IsListed (written raw.now) }
    requires agent_in { agent < agent_count (written raw.now) }
    requires kind_in { kind < slice_index (sizes_of (written raw.now)) agent }
    ensures { result ≡ outside_of (written raw.now) agent kind }
{
    agent_in(raw, agent).outside.as_slice()[kind]
}

/// The weight of a type of an agent.
pub(crate) fn type_weight_in(raw: &RawSetting, agent: usize, kind: usize) -> i64
    requires listed { IsListed (written raw.now) }
    requires no_prior { (written raw.now).prior ≡ None }
    requires agent_in { agent < agent_count (written raw.now) }
    requires kind_in { kind < slice_index (sizes_of (written raw.now)) agent }
    ensures { result ≡ number_at (agent_at (written raw.now) agent).weights kind }
{
    agent_in(raw, agent).weights.as_slice()[kind]
}
