//! Whether the sizes of a setting are within the limits, and its lists run over what they should.
ghost use Rattle.std.specs.Prelude.{◌≡◌, ◌≢◌, ◌≤◌, ◌<◌, ◌==◌, ◌&&◌, IfOk, IfErr, MatchResult, true, false, All, map, vec_len, is_some, length, nat_le, option_map};
ghost use Rattle.std.specs.List.{list_all};
ghost use Rattle.md_space.specs.Profiles.{profile_count};
ghost use Rattle.md_setting.specs.Setting.{written, written_agent, lists_of};
ghost use Rattle.md_setting.specs.Meaning.{sizes_of};
ghost use Rattle.md_setting.specs.Refusals.{has_good_sizes, has_good_shape, has_agent_shape, has_at_shape, has_prior_shape};

use crate::{BuildRefusal, RawAgent, RawSetting};
use md_space::{MAX_TYPES, Space, SpaceRefusal};
use std::alloc::{AllocError, Global};

/// The most outcomes of a setting.
pub const MAX_OUTCOMES: usize = 16;

#[tactic(auto, using(crate::proofs::SizeTests::size_tests))]
/// The space of the profiles, where the sizes are within the limits.
pub(crate) fn space_of(alloc: Global, raw: &RawSetting) -> Result<Space, BuildRefusal>
    ensures ok { IfOk result (λ space. space ≡ sizes_of (written raw.now)) }
    ensures accepted { IfOk result (λ _. has_good_sizes (written raw.now) ≡ true) }
    ensures sizes { IfErr result (λ e. e ≢ BuildRefusal.Memory → e ≡ BuildRefusal.Sizes) }
    ensures refused { result ≡ Err BuildRefusal.Sizes → has_good_sizes (written raw.now) ≡ false }
{
    let outcomes = raw.outcomes.len();
    if outcomes < 1 || outcomes > MAX_OUTCOMES || !has_few_types(&raw.agents) {
        return Err(BuildRefusal::Sizes);
    }
    let Ok(sizes) = sizes(alloc, &raw.agents) else {
        return Err(BuildRefusal::Memory);
    };
    match Space::new(alloc, &sizes) {
        Ok(space) => Ok(space),
        Err(SpaceRefusal::Memory) => Err(BuildRefusal::Memory),
        Err(_) => Err(BuildRefusal::Sizes),
    }
}

fn has_few_types(agents: &[RawAgent]) -> bool
    ensures { result ≡ list_all (λ agent. nat_le (vec_len agent.types) 16) agents.now }
{
    agents
        .iter()
        .all(|agent| agent.types.len() <= MAX_TYPES as usize)
}

fn sizes(alloc: Global, agents: &[RawAgent]) -> Result<Vec<u8>, AllocError>
    requires { All (λ agent. vec_len agent.types ≤ 16) agents.now }
    ensures { IfOk result (λ sizes. sizes.items ≡ map (λ agent. vec_len agent.types) agents.now) }
{
    let mut sizes = Vec::new(alloc);
    for agent in agents {
        sizes.push(agent.types.len() as u8)?;
    }
    Ok(sizes)
}

/// Whether each list has the length of what it runs over.
#[tactic(auto, using(crate::proofs::Views::good_shape))]
pub(crate) fn has_good_shape(raw: &RawSetting, profiles: u32) -> bool
    requires { profiles ≡ profile_count (sizes_of (written raw.now)) }
    ensures { result ≡ has_good_shape (written raw.now) }
{
    let outcomes = raw.outcomes.len();
    let has_prior = raw.prior.is_some();
    have_shape(&raw.agents, has_prior, profiles as usize, outcomes)
        && has_prior_shape(&raw.prior, profiles as usize)
        && raw.values.len() == outcomes
}

fn have_shape(agents: &[RawAgent], has_prior: bool, profiles: usize, outcomes: usize) -> bool
    ensures { result ≡ list_all (λ agent. has_agent_shape has_prior profiles outcomes (written_agent agent)) agents.now }
{
    agents.iter().all(|agent| has_agent_shape(agent, has_prior, profiles, outcomes))
}

#[tactic(auto, using(crate::proofs::Views::agent_shape))]
fn has_agent_shape(agent: &RawAgent, has_prior: bool, profiles: usize, outcomes: usize) -> bool
    ensures { result ≡ has_agent_shape has_prior profiles outcomes (written_agent agent.now) }
{
    let types = agent.types.len();
    let own = if agent.at.is_some() { 0 } else { types };
    agent.weights.len() == (if has_prior { 0 } else { types })
        && agent.outside.len() == types
        && are_rows(&agent.utility, own, outcomes)
        && has_at_shape(&agent.at, profiles, outcomes)
}

#[tactic(auto, using(crate::proofs::Views::all_rows))]
fn has_at_shape(at: &Option<Vec<Vec<i64>>>, profiles: usize, outcomes: usize) -> bool
    ensures { result ≡ has_at_shape profiles outcomes (option_map (λ rows. lists_of rows.items) at.now) }
{
    match at {
        None => true,
        Some(rows) => are_rows(rows, profiles, outcomes),
    }
}

fn are_rows(rows: &[Vec<i64>], count: usize, columns: usize) -> bool
    ensures { result ≡ ((length rows.now == count) && list_all (λ row. vec_len row == columns) rows.now) }
{
    rows.len() == count && are_long(rows, columns)
}

fn are_long(rows: &[Vec<i64>], columns: usize) -> bool
    ensures { result ≡ list_all (λ row. vec_len row == columns) rows.now }
{
    rows.iter().all(|row| row.len() == columns)
}

fn has_prior_shape(prior: &Option<Vec<i64>>, profiles: usize) -> bool
    ensures { result ≡ has_prior_shape (option_map (λ weights. weights.items) prior.now) profiles }
{
    match prior {
        None => true,
        Some(weights) => weights.len() == profiles,
    }
}
