//! Whether the numbers of a setting are within their limits.
ghost use Rattle.std.specs.Prelude.{◌≡◌, map, is_some, option_map};
ghost use Rattle.std.specs.List.{list_all};
ghost use Rattle.md_setting.specs.Setting.{written, written_agent, lists_of};
ghost use Rattle.md_setting.specs.Refusals.{is_small, is_weight, has_small_numbers, has_small_at, has_small_prior, has_small_lists};

use crate::{RawAgent, RawSetting};

/// The greatest size of a utility, an outside utility and an outcome's value.
pub const MAX_UTILITY: u64 = 1_000_000;

/// The greatest weight.
pub const MAX_WEIGHT: i64 = 1_000_000;

/// The greatest size of the factors `welfare` and `revenue`.
pub const MAX_FACTOR: u64 = 1_000;

/// Whether each number that is written is within its limit.
#[tactic(auto, using(crate::proofs::RangeTests::small_lists))]
pub(crate) fn has_small_lists(raw: &RawSetting) -> bool
    ensures { result ≡ has_small_lists (written raw.now) }
{
    have_small_numbers(&raw.agents)
        && has_small_prior(&raw.prior)
        && are_small(MAX_UTILITY, &raw.values)
        && is_small(MAX_FACTOR, raw.welfare)
        && is_small(MAX_FACTOR, raw.revenue)
}

fn have_small_numbers(agents: &[RawAgent]) -> bool
    ensures { result ≡ list_all (λ agent. has_small_numbers (written_agent agent)) agents.now }
{
    agents.iter().all(|agent| has_small_numbers(agent))
}

#[tactic(auto, using(crate::proofs::RangeTests::small_numbers))]
fn has_small_numbers(agent: &RawAgent) -> bool
    ensures { result ≡ has_small_numbers (written_agent agent.now) }
{
    are_weights(&agent.weights)
        && are_small(MAX_UTILITY, &agent.outside)
        && are_small_rows(MAX_UTILITY, &agent.utility)
        && has_small_at(&agent.at)
}

#[tactic(auto, using(crate::proofs::RangeTests::small_rows))]
fn has_small_at(at: &Option<Vec<Vec<i64>>>) -> bool
    ensures { result ≡ has_small_at (option_map (λ rows. lists_of rows.items) at.now) }
{
    match at {
        None => true,
        Some(rows) => are_small_rows(MAX_UTILITY, rows),
    }
}

fn has_small_prior(prior: &Option<Vec<i64>>) -> bool
    ensures { result ≡ has_small_prior (option_map (λ weights. weights.items) prior.now) }
{
    match prior {
        None => true,
        Some(weights) => are_weights(weights),
    }
}

pub(crate) fn are_weights(numbers: &[i64]) -> bool
    ensures { result ≡ list_all is_weight numbers.now }
{
    numbers.iter().all(|number| is_weight(*number))
}

fn is_weight(number: i64) -> bool
    ensures { result ≡ is_weight number }
{
    0 <= number && number <= MAX_WEIGHT
}

fn are_small_rows(limit: u64, rows: &[Vec<i64>]) -> bool
    ensures { result ≡ list_all (λ row. list_all (is_small limit) row.items) rows.now }
{
    rows.iter().all(|row| are_small(limit, row))
}

pub(crate) fn are_small(limit: u64, numbers: &[i64]) -> bool
    ensures { result ≡ list_all (is_small limit) numbers.now }
{
    numbers.iter().all(|number| is_small(limit, *number))
}

pub(crate) fn is_small(limit: u64, number: i64) -> bool
    ensures { result ≡ is_small limit number }
{
    number.unsigned_abs() <= limit
}
