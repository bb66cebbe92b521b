//! The weights of profiles and of types.
ghost use Rattle.std.specs.Prelude.{◌≡◌, ◌<◌, ◌≤◌, ◌+◌, ◌^◌, ◌↔◌, ◌==◌, ℤ, pos, ◌+ℤ◌, ◌≤ℤ◌, ◌<ℤ◌, not, true, false, None, length, unsigned_abs, slice_index, IfOk, IsTrue, MatchOption};
ghost use Rattle.md_math.specs.Lists.{list_to};
ghost use Rattle.md_space.specs.Profiles.{profile_count, profile_at};
ghost use Rattle.md_setting.specs.Setting.{written};
ghost use Rattle.md_setting.specs.Meaning.{agent_count, sizes_of, type_weights, weight_of, total_of, marginal_of};
ghost use Rattle.md_setting.specs.Shaped.{IsListed, IsSmall};
ghost use Rattle.md_setting.specs.Refusals.{all_below, has_all_weights, has_small_total};

use crate::RawSetting;
use crate::lookup::type_weight_in;
use crate::range::MAX_WEIGHT;
use md_num::product;
use md_space::Space;
use std::alloc::{AllocError, Global};

/// The weight of the profile of a rank.
pub(crate) fn weight_in(raw: &RawSetting, space: &Space, rank: u32) -> i128
    requires listed { IsListed (written raw.now) }
    requires small { IsSmall (written raw.now) }
    requires sizes { space.now ≡ sizes_of (written raw.now) }
    requires rank_in { rank < profile_count space.now }
    ensures value { result ≡ weight_of (written raw.now) (profile_at (sizes_of (written raw.now)) rank) }
    ensures nonneg { pos 0 ≤ℤ result }
    ensures size { unsigned_abs result ≤ 10 ^ 36 }
{
    match &raw.prior {
        Some(prior) => i128::from(prior.as_slice()[rank as usize]),
        None => type_product(raw, space, rank),
    }
}

fn type_product(raw: &RawSetting, space: &Space, rank: u32) -> i128
    requires listed { IsListed (written raw.now) }
    requires small { IsSmall (written raw.now) }
    requires no_prior { (written raw.now).prior ≡ None }
    requires sizes { space.now ≡ sizes_of (written raw.now) }
    requires rank_in { rank < profile_count space.now }
    ensures value { result ≡ type_weights (written raw.now).agents (profile_at (sizes_of (written raw.now)) rank) }
    ensures size { unsigned_abs result ≤ 10 ^ 36 }
{
    let mut weight = 1;
    for agent in 0..space.agents() {
        let kind = space.report(rank, agent);
        weight = product(
            weight,
            i128::from(type_weight_in(raw, agent as usize, kind as usize)),
        );
    }
    weight
}

/// Whether each type of each agent has a weight in all.
pub(crate) fn has_all_weights(raw: &RawSetting, space: &Space) -> bool
    requires listed { IsListed (written raw.now) }
    requires small { IsSmall (written raw.now) }
    requires sizes { space.now ≡ sizes_of (written raw.now) }
    ensures { result ≡ has_all_weights (written raw.now) }
{
    for agent in 0..space.agents() {
        if !has_type_weights(raw, space, agent) {
            return false;
        }
    }
    true
}

fn has_type_weights(raw: &RawSetting, space: &Space, agent: u8) -> bool
    requires listed { IsListed (written raw.now) }
    requires small { IsSmall (written raw.now) }
    requires sizes { space.now ≡ sizes_of (written raw.now) }
    requires agent_in { agent < agent_count (written raw.now) }
    ensures { result ≡ all_below (slice_index (sizes_of (written raw.now)) agent) (λ a. not (unsigned_abs (marginal_of (written raw.now) agent a) == 0)) }
{
    for kind in 0..space.types(agent) {
        if !has_weight(raw, space, agent, kind) {
            return false;
        }
    }
    true
}

fn has_weight(raw: &RawSetting, space: &Space, agent: u8, kind: u8) -> bool
    requires listed { IsListed (written raw.now) }
    requires small { IsSmall (written raw.now) }
    requires sizes { space.now ≡ sizes_of (written raw.now) }
    requires agent_in { agent < agent_count (written raw.now) }
    ensures { result ≡ not (unsigned_abs (marginal_of (written raw.now) agent kind) == 0) }
{
    for rank in 0..space.profiles() {
        if space.report(rank, agent) == kind && is_positive(weight_in(raw, space, rank)) {
            return true;
        }
    }
    false
}

fn is_positive(number: i128) -> bool
    ensures { IsTrue result ↔ (pos 0 <ℤ number) }
{
    number > 0
}

/// The weight of all profiles, or None where that is too much.
pub(crate) fn total_in(raw: &RawSetting, space: &Space) -> Option<i64>
    requires listed { IsListed (written raw.now) }
    requires small { IsSmall (written raw.now) }
    requires sizes { space.now ≡ sizes_of (written raw.now) }
    ensures { MatchOption result (has_small_total (written raw.now) ≡ false) (λ total. (has_small_total (written raw.now) ≡ true) × (total ≡ total_of (written raw.now))) }
{
    let mut total: i128 = 0;
    for rank in 0..space.profiles() {
        total = plus(total, weight_in(raw, space, rank));
        if total > MAX_WEIGHT as i128 {
            return None;
        }
    }
    Some(total as i64)
}

fn plus(a: i128, b: i128) -> i128
    requires { unsigned_abs a + unsigned_abs b < 2 ^ 126 }
    ensures { result ≡ a +ℤ b }
{
    a + b
}

/// The weights of all profiles, by rank.
pub(crate) fn weights_by_rank(
    alloc: Global,
    raw: &RawSetting,
    space: &Space,
) -> Result<Vec<i64>, AllocError>
    requires listed { IsListed (written raw.now) }
    requires small { IsSmall (written raw.now) }
    requires sizes { space.now ≡ sizes_of (written raw.now) }
    requires total { has_small_total (written raw.now) ≡ true }
    ensures { IfOk result (λ weights. weights.items ≡ list_to (profile_count (sizes_of (written raw.now))) (λ r. weight_of (written raw.now) (profile_at (sizes_of (written raw.now)) r))) }
{
    let mut weights = Vec::new(alloc);
    for rank in 0..space.profiles() {
        weights.push(weight_in(raw, space, rank) as i64)?;
    }
    Ok(weights)
}
