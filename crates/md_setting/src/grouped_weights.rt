//! The weights and the orders of an auction with groups of bidders, as written.
ghost use Rattle.std.specs.Prelude.{◌≡◌, ◌==◌, ◌*◌, nat_le, not, pos, length, map, unsigned_abs};
ghost use Rattle.std.specs.List.{list_all};
ghost use Rattle.md_math.specs.Divisors.{IsGcdOf, IsGcdOfTwo};
ghost use Rattle.md_math.specs.Lists.{number_at};
ghost use Rattle.md_setting.specs.Auction.{total_weight};
ghost use Rattle.md_setting.specs.AuctionRefusals.{is_ascending};
ghost use Rattle.md_setting.specs.Grouped.{written_grouped, written_group};
ghost use Rattle.md_setting.specs.GroupedRefusals.{is_small_once_divided, has_positive_weights, has_small_totals, has_ascending_values, are_falling};

use crate::auction_limits::is_ascending;
use crate::{RawGroup, RawGroupedAuction};
use md_num::gcd;

// The most that the weights of a group add to, once they are divided by their greatest common divisor.
const MAX_DIVIDED_TOTAL: u128 = 1_000_000;

/// Whether no weight is 0.
#[tactic(auto, using(crate::proofs::GroupedViews::positive_weights))]
pub(crate) fn has_positive_weights(raw: &RawGroupedAuction) -> bool
    ensures { result ≡ has_positive_weights (written_grouped raw.now) }
{
    have_positive_weights(&raw.groups)
}

fn have_positive_weights(groups: &[RawGroup]) -> bool
    ensures { result ≡ list_all (λ group. list_all (λ weight. not (unsigned_abs weight == 0)) (written_group group).weights) groups.now }
{
    groups.iter().all(|group| are_positive(&group.weights))
}

fn are_positive(weights: &[i64]) -> bool
    ensures { result ≡ list_all (λ weight. not (unsigned_abs weight == 0)) weights.now }
{
    weights.iter().all(|weight| is_positive(*weight))
}

fn is_positive(weight: i64) -> bool
    ensures { result ≡ not (unsigned_abs weight == 0) }
{
    weight.unsigned_abs() != 0
}

/// Whether the weights of each group add to little enough.
#[tactic(auto, using(crate::proofs::GroupedViews::small_totals))]
pub(crate) fn has_small_totals(raw: &RawGroupedAuction) -> bool
    ensures { result ≡ has_small_totals (written_grouped raw.now) }
{
    have_small_totals(&raw.groups)
}

fn have_small_totals(groups: &[RawGroup]) -> bool
    ensures { result ≡ list_all (λ group. is_small_once_divided (map unsigned_abs (written_group group).weights)) groups.now }
{
    groups.iter().all(|group| has_small_total(&group.weights))
}

fn has_small_total(weights: &[i64]) -> bool
    ensures { result ≡ is_small_once_divided (map unsigned_abs weights.now) }
{
    is_small_total(total_of(weights), divisor_of(weights))
}

fn is_small_total(total: u128, divisor: u64) -> bool
    ensures { result ≡ nat_le total (divisor * 1000000) }
{
    total <= u128::from(divisor) * MAX_DIVIDED_TOTAL
}

fn total_of(weights: &[i64]) -> u128
    ensures { result ≡ total_weight (map unsigned_abs weights.now) }
{
    let mut total = 0;
    for weight in weights {
        total += u128::from(weight.unsigned_abs());
    }
    total
}

// The greatest common divisor of some weights.
fn divisor_of(weights: &[i64]) -> u64
    ensures { IsGcdOf (length weights.now) (number_at weights.now) (pos result) }
{
    let mut divisor = 0;
    for weight in weights {
        divisor = common_divisor(divisor, *weight);
    }
    divisor
}

fn common_divisor(divisor: u64, weight: i64) -> u64
    ensures { IsGcdOfTwo (pos divisor) weight (pos result) }
{
    gcd(i128::from(divisor), i128::from(weight)) as u64
}

/// Whether the values of each group ascend strictly.
#[tactic(auto, using(crate::proofs::GroupedViews::ascending))]
pub(crate) fn has_ascending_values(raw: &RawGroupedAuction) -> bool
    ensures { result ≡ has_ascending_values (written_grouped raw.now) }
{
    have_ascending_values(&raw.groups)
}

fn have_ascending_values(groups: &[RawGroup]) -> bool
    ensures { result ≡ list_all (λ group. is_ascending (written_group group).values) groups.now }
{
    groups.iter().all(|group| is_ascending(&group.values))
}

/// Whether no slot has a greater amount than the one before it.
pub(crate) fn are_falling(slots: &[i64]) -> bool
    ensures { result ≡ are_falling slots.now }
{
    if slots.is_empty() {
        return true;
    }
    for place in 0..slots.len() - 1 {
        if slots[place + 1] > slots[place] {
            return false;
        }
    }
    true
}
