//! What the rows on truth and on taking part are multiplied by.
ghost use Rattle.std.specs.Prelude.{◌≡◌, ℕ, ◌+◌, ◌*◌, ◌<◌, ◌^◌, ℤ, pos, ◌+ℤ◌, ◌*ℤ◌, ◌<ℤ◌, unsigned_abs};
ghost use Rattle.md_math.specs.Sizes.{IsWithin};
ghost use Rattle.md_setting.specs.Auction.{total_weight, value_count};
ghost use Rattle.md_iron_values.specs.Gaps.{gap_in, scale_in};
ghost use Rattle.md_iron_values.specs.Pools.{Pools};
ghost use Rattle.md_iron_values.specs.VirtualValues.{weight_from};
ghost use Rattle.md_iron_laws.specs.Multipliers.{apart_by};
ghost use Rattle.md_iron_laws.specs.Rows.{truth_row, rational_row};
ghost use Rattle.md_iron_pools.specs.Pooling.{IsPooling, pools_of};
ghost use Rattle.md_iron.specs.RowMultipliers.{IsMultiplierOf};
ghost use Rattle.md_iron.specs.Shares.{IsLeastFraction};

use md_iron_pools::{AuctionPools, chord_gap, weight_from};
use md_num::{Frac, add_product, product};
use md_setting::Auction;

/// What the row is multiplied by that says that a bidder with a value does not gain by telling another one: 0 but between
/// neighbouring values.
pub(crate) fn truth_multiplier(
    auction: &Auction,
    pools: &AuctionPools,
    factor: i128,
    kind: u32,
    other: u32,
) -> Frac
    requires pooling { IsPooling auction.now pools.now }
    requires kind_in { kind < value_count auction.now }
    requires other_in { other < value_count auction.now }
    requires positive { pos 0 <ℤ factor }
    requires factor_size { IsWithin (2 ^ 44) factor }
    ensures least { IsLeastFraction result }
    ensures multiplier { (divisor : ℕ → ℤ) → IsMultiplierOf auction.now (pools_of pools.now) factor divisor (truth_row kind other) result }
{
    let _shaped = auction.kinds();
    if other == kind + 1 {
        return upward(auction, pools, factor, kind, other);
    }
    if kind == other + 1 {
        return downward(auction, pools, factor, kind, other);
    }
    Frac { num: 0, den: 1 }
}

// The same of a value and the next one above.
fn upward(auction: &Auction, pools: &AuctionPools, factor: i128, kind: u32, other: u32) -> Frac
    requires pooling { IsPooling auction.now pools.now }
    requires next { other ≡ kind + 1 }
    requires other_in { other < value_count auction.now }
    requires positive { pos 0 <ℤ factor }
    requires factor_size { IsWithin (2 ^ 44) factor }
    ensures least { IsLeastFraction result }
    ensures value { result.num *ℤ (scale_in auction.now (pools_of pools.now) other *ℤ (apart_by auction.now other kind *ℤ factor)) ≡ gap_in auction.now (pools_of pools.now) other *ℤ result.den }
{
    let gap = chord_gap(auction, pools, other);
    let den = step_den(gap.scale, apart(auction, other, kind), factor);
    least_terms(gap.height, den)
}

// The same of a value and the next one below.
fn downward(auction: &Auction, pools: &AuctionPools, factor: i128, kind: u32, other: u32) -> Frac
    requires pooling { IsPooling auction.now pools.now }
    requires next { kind ≡ other + 1 }
    requires kind_in { kind < value_count auction.now }
    requires positive { pos 0 <ℤ factor }
    requires factor_size { IsWithin (2 ^ 44) factor }
    ensures least { IsLeastFraction result }
    ensures value { result.num *ℤ (scale_in auction.now (pools_of pools.now) kind *ℤ (apart_by auction.now kind other *ℤ factor)) ≡ (auction.now.revenue *ℤ (weight_from auction.now kind *ℤ (scale_in auction.now (pools_of pools.now) kind *ℤ apart_by auction.now kind other)) +ℤ gap_in auction.now (pools_of pools.now) kind) *ℤ result.den }
{
    let gap = chord_gap(auction, pools, kind);
    let step = apart(auction, kind, other);
    let num = downward_num(auction, kind, gap.height, gap.scale, step);
    least_terms(num, step_den(gap.scale, step, factor))
}

// The numerator of the latter: what is paid for the item by all who have the value or a higher one, and the gap.
fn downward_num(auction: &Auction, kind: u32, height: i128, scale: i128, step: i128) -> i128
    requires kind_in { kind < value_count auction.now }
    requires height { IsWithin (2 ^ 76) height }
    requires scale { IsWithin 1000000 scale }
    requires step { IsWithin 1000000 step }
    ensures value { result ≡ auction.now.revenue *ℤ (weight_from auction.now kind *ℤ (scale *ℤ step)) +ℤ height }
    ensures size { unsigned_abs result < 2 ^ 126 }
{
    let paid = product(weight_from(auction, kind), product(scale, step));
    add_product(height, i128::from(auction.revenue()), paid)
}

// The denominator of both.
fn step_den(scale: i128, step: i128, factor: i128) -> i128
    requires scale { pos 0 <ℤ scale }
    requires step { pos 0 <ℤ step }
    requires factor { pos 0 <ℤ factor }
    requires scale_size { IsWithin 1000000 scale }
    requires step_size { IsWithin 1000000 step }
    requires factor_size { IsWithin (2 ^ 44) factor }
    ensures value { result ≡ scale *ℤ (step *ℤ factor) }
    ensures positive { pos 0 <ℤ result }
    ensures size { unsigned_abs result < 2 ^ 126 }
{
    product(scale, product(step, factor))
}

// How far a value is above the one before it.
fn apart(auction: &Auction, high: u32, low: u32) -> i128
    requires high_in { high < value_count auction.now }
    requires next { high ≡ low + 1 }
    ensures value { result ≡ apart_by auction.now high low }
    ensures positive { pos 0 <ℤ result }
    ensures size { IsWithin 1000000 result }
{
    i128::from(auction.value(high)) - i128::from(auction.value(low))
}

/// What the row is multiplied by that says that a bidder with a value does not lose by taking part: 0 but at the lowest one.
pub(crate) fn rational_multiplier(auction: &Auction, factor: i128, kind: u32) -> Frac
    requires positive { pos 0 <ℤ factor }
    requires factor_size { IsWithin (2 ^ 44) factor }
    ensures least { IsLeastFraction result }
    ensures multiplier { (pools : Pools) (divisor : ℕ → ℤ) → IsMultiplierOf auction.now pools factor divisor (rational_row kind) result }
{
    if kind != 0 {
        return Frac { num: 0, den: 1 };
    }
    least_terms(paid_by_all(auction), factor)
}

// What all bidders together pay for the item where each pays one unit, in units of the objective.
fn paid_by_all(auction: &Auction) -> i128
    ensures value { result ≡ auction.now.revenue *ℤ pos (total_weight auction.now.weights) }
    ensures size { unsigned_abs result < 2 ^ 126 }
{
    product(i128::from(auction.revenue()), i128::from(auction.total()))
}

/// A fraction in least terms.
pub(crate) fn least_terms(num: i128, den: i128) -> Frac
    requires positive { pos 0 <ℤ den }
    requires num_size { unsigned_abs num < 2 ^ 126 }
    requires den_size { unsigned_abs den < 2 ^ 126 }
    ensures least { IsLeastFraction result }
    ensures value { result.num *ℤ den ≡ num *ℤ result.den }
{
    Frac::reduced(num, den)
}
