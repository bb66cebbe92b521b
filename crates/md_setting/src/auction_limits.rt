//! Whether an auction as written is within the limits.
ghost use Rattle.std.specs.Prelude.{◌≡◌, ◌≤◌, ◌<◌, ◌+◌, ◌-◌, ◌*◌, ◌^◌, ◌&&◌, ℤ, ◌*ℤ◌, ◌≤ℤ◌, pos, int_le, nat_le, length, map, unsigned_abs, IfOk, All};
ghost use Rattle.std.specs.List.{list_all};
ghost use Rattle.md_setting.specs.Auction.{written_auction, total_weight};
ghost use Rattle.md_setting.specs.Refusals.{is_small, is_weight};
ghost use Rattle.md_setting.specs.AuctionRefusals.{is_auction_in_range, is_up_to, are_positive, is_ascending};

use crate::range::{are_weights, is_small};
use std::alloc::{AllocError, Global};

/// The most bidders, and the most values.
pub const MAX_BIDDERS: i64 = 12;

pub const MAX_VALUES: usize = 12;

/// The most that all values weigh together.
pub const MAX_TOTAL: u64 = 1_000_000;

/// The greatest value.
pub const MAX_VALUE: i64 = 1_000_000;

// The greatest factor of the payments.
const MAX_REVENUE: i64 = 1_000;

/// The greatest size of the factor of the bidders' utilities, and of what the item is worth to the designer.
const MAX_WELFARE: u64 = 1_000;

const MAX_KEEP: u64 = 1_000_000;

/// The greatest size of a value times the factor of the bidders' utilities.
const MAX_GAIN: u128 = 10_000_000;

/// Whether there are neither too few nor too many bidders and values.
pub(crate) fn has_good_numbers(bidders: i64, values: &[i64]) -> bool
    ensures { result ≡ (int_le (pos 1) bidders && int_le bidders (pos 12) && nat_le 1 (length values.now) && nat_le (length values.now) 12) }
{
    1 <= bidders && bidders <= MAX_BIDDERS && !values.is_empty() && values.len() <= MAX_VALUES
}

/// Whether each number is within its limit.
pub(crate) fn are_in_range(
    values: &[i64],
    weights: &[i64],
    revenue: i64,
    welfare: i64,
    keep: i64,
) -> bool
    ensures { (bidders : ℤ) → result ≡ is_auction_in_range (written_auction bidders values.now weights.now revenue welfare keep) }
{
    are_lists_in_range(values, weights)
        && are_factors_in_range(revenue, welfare, keep)
        && are_gains_in_range(welfare, values)
}

// Whether each value and its weight is within its limit.
fn are_lists_in_range(values: &[i64], weights: &[i64]) -> bool
    ensures { result ≡ (list_all (is_up_to 1000000) values.now && list_all is_weight weights.now) }
{
    are_values(values) && are_weights(weights)
}

fn are_values(values: &[i64]) -> bool
    ensures { result ≡ list_all (is_up_to 1000000) values.now }
{
    values.iter().all(|value| is_up_to(MAX_VALUE, *value))
}

/// Whether the factors, and what an item that is kept is worth to the designer, are within their limits.
pub(crate) fn are_factors_in_range(revenue: i64, welfare: i64, keep: i64) -> bool
    ensures { result ≡ (is_up_to 1000 revenue && is_small 1000 welfare && is_small 1000000 keep) }
{
    is_up_to(MAX_REVENUE, revenue) && is_small(MAX_WELFARE, welfare) && is_small(MAX_KEEP, keep)
}

fn is_up_to(limit: i64, number: i64) -> bool
    requires { pos 0 ≤ℤ limit }
    ensures { result ≡ (int_le (pos 0) number && int_le number limit) }
{
    0 <= number && number <= limit
}

/// Whether each value times the factor of the bidders' utilities is within its limit.
pub(crate) fn are_gains_in_range(welfare: i64, values: &[i64]) -> bool
    ensures { result ≡ list_all (λ value. is_small 10000000 (welfare *ℤ value)) values.now }
{
    values.iter().all(|value| is_gain_in_range(welfare, *value))
}

fn is_gain_in_range(welfare: i64, value: i64) -> bool
    ensures { result ≡ is_small 10000000 (welfare *ℤ value) }
{
    is_small_gain(gain_of(welfare, value))
}

fn gain_of(welfare: i64, value: i64) -> i128
    ensures { result ≡ welfare *ℤ value }
{
    i128::from(welfare) * i128::from(value)
}

fn is_small_gain(gain: i128) -> bool
    ensures { result ≡ is_small 10000000 gain }
{
    gain.unsigned_abs() <= MAX_GAIN
}

/// The weights, none of which is negative.
pub(crate) fn sizes_of(alloc: Global, weights: &[i64]) -> Result<Vec<u64>, AllocError>
    ensures { IfOk result (λ sizes. sizes.items ≡ map unsigned_abs weights.now) }
{
    let mut sizes = Vec::new(alloc);
    for weight in weights {
        sizes.push(weight.unsigned_abs())?;
    }
    Ok(sizes)
}

/// Whether no weight is 0.
pub(crate) fn are_positive(weights: &[u64]) -> bool
    ensures { result ≡ are_positive weights.now }
{
    weights.iter().all(|weight| *weight != 0)
}

/// The weight of all values together.
pub(crate) fn total_weight(weights: &[u64]) -> u64
    requires few { length weights.now ≤ 12 }
    requires sizes { All (λ weight. weight ≤ 1000000) weights.now }
    ensures { result ≡ total_weight weights.now }
{
    let mut total = 0;
    for weight in weights {
        total += *weight;
    }
    total
}

/// Whether each value is below the next one.
pub(crate) fn is_ascending(values: &[i64]) -> bool
    ensures { result ≡ is_ascending values.now }
{
    if values.is_empty() {
        return true;
    }
    for place in 0..values.len() - 1 {
        if values[place] >= values[place + 1] {
            return false;
        }
    }
    true
}
