//! What the rows of cuts are multiplied by.
ghost use Rattle.std.specs.Prelude.{◌≡◌, ℕ, ◌*◌, ◌<◌, ◌≤◌, ◌^◌, ℤ, pos, ◌-ℤ◌, ◌*ℤ◌, ◌<ℤ◌, unsigned_abs};
ghost use Rattle.md_math.specs.Divisors.{Divides};
ghost use Rattle.md_math.specs.Sizes.{IsWithin};
ghost use Rattle.md_setting.specs.Auction.{value_count};
ghost use Rattle.md_lp.specs.Program.{right_at, row_count};
ghost use Rattle.md_border.specs.Sides.{right_by_counts};
ghost use Rattle.md_iron_values.specs.Odds.{share_den};
ghost use Rattle.md_iron_laws.specs.Multipliers.{steeper_by, steeper_den, sum_before, weight_of_before};
ghost use Rattle.md_iron_laws.specs.Rows.{cut_row};
ghost use Rattle.md_iron_pools.specs.Pooling.{IsPooling, pools_of};
ghost use Rattle.md_iron.specs.RowMultipliers.{IsMultiplierOf};
ghost use Rattle.md_iron.specs.Shares.{IsLeastFraction};

use crate::truth_rows::least_terms;
use md_border::right_side_for;
use md_iron_pools::{AuctionPools, Chord, chord_of, share_of_all};
use md_lp::Lp;
use md_num::{Frac, cross_difference, exact_quotient, product};
use md_setting::Auction;

/// What the row of the cut is multiplied by that a value begins with, whose row was divided by `divisor`.
pub(crate) fn cut_multiplier(
    auction: &Auction,
    pools: &AuctionPools,
    factor: i128,
    start: u32,
    divisor: i128,
) -> Frac
    requires pooling { IsPooling auction.now pools.now }
    requires start_in { start < value_count auction.now }
    requires positive { pos 0 <ℤ factor }
    requires factor_size { IsWithin (2 ^ 44) factor }
    requires divisor_size { IsWithin (12 * 10 ^ 12) divisor }
    ensures least { IsLeastFraction result }
    ensures multiplier { (divisors : ℕ → ℤ) → divisors start ≡ divisor → IsMultiplierOf auction.now (pools_of pools.now) factor divisors (cut_row start) result }
{
    let chord = chord_of(auction, pools, start);
    let before = chord_before(auction, pools, start);
    least_terms(
        cut_num(&chord, &before, divisor),
        cut_den(auction, &chord, &before, factor),
    )
}

// The numerator: how much steeper the chord is than the one before, as often as the row was divided.
fn cut_num(chord: &Chord, before: &Chord, divisor: i128) -> i128
    requires rise { IsWithin (2 ^ 55) chord.now.rise }
    requires weight { IsWithin 1000000 chord.now.weight }
    requires rise_before { IsWithin (2 ^ 55) before.now.rise }
    requires weight_before { IsWithin 1000000 before.now.weight }
    requires divisor { IsWithin (12 * 10 ^ 12) divisor }
    ensures value { result ≡ (chord.now.rise *ℤ before.now.weight -ℤ before.now.rise *ℤ chord.now.weight) *ℤ divisor }
    ensures size { unsigned_abs result < 2 ^ 126 }
{
    product(steeper(chord, before), divisor)
}

// The denominator: the weights of both, as often as a bidder that always wins meets others, and as the cost was divided.
fn cut_den(auction: &Auction, chord: &Chord, before: &Chord, factor: i128) -> i128
    requires weight { IsWithin 1000000 chord.now.weight }
    requires weight_before { IsWithin 1000000 before.now.weight }
    requires factor { IsWithin (2 ^ 44) factor }
    requires weight_positive { pos 0 <ℤ chord.now.weight }
    requires before_positive { pos 0 <ℤ before.now.weight }
    requires factor_positive { pos 0 <ℤ factor }
    ensures value { result ≡ (chord.now.weight *ℤ before.now.weight) *ℤ (share_den auction.now *ℤ factor) }
    ensures positive { pos 0 <ℤ result }
    ensures size { unsigned_abs result < 2 ^ 126 }
{
    let weights = product(chord.weight, before.weight);
    product(weights, product(share_of_all(auction), factor))
}

// How much steeper a chord is than another one, times the weights of both.
fn steeper(chord: &Chord, before: &Chord) -> i128
    requires rise { IsWithin (2 ^ 55) chord.now.rise }
    requires weight { IsWithin 1000000 chord.now.weight }
    requires rise_before { IsWithin (2 ^ 55) before.now.rise }
    requires weight_before { IsWithin 1000000 before.now.weight }
    ensures value { result ≡ chord.now.rise *ℤ before.now.weight -ℤ before.now.rise *ℤ chord.now.weight }
    ensures size { IsWithin (2 ^ 76) result }
{
    cross_difference(chord.rise, before.weight, before.rise, chord.weight)
}

// The chord of the pool before the one that a value begins; that before the first pool that buys is flat.
fn chord_before(auction: &Auction, pools: &AuctionPools, start: u32) -> Chord
    requires pooling { IsPooling auction.now pools.now }
    requires start_in { start < value_count auction.now }
    ensures rise { result.rise ≡ sum_before auction.now (pools_of pools.now) start }
    ensures weight { result.weight ≡ weight_of_before auction.now (pools_of pools.now) start }
    ensures rise_size { IsWithin (2 ^ 55) result.rise }
    ensures weight_size { IsWithin 1000000 result.weight }
    ensures positive { pos 0 <ℤ result.weight }
{
    if start <= pools.reserve {
        return Chord { rise: 0, weight: 1 };
    }
    chord_of(auction, pools, start - 1)
}

/// By what the row of a cut was divided in the program of so many units.
pub(crate) fn cut_divisor(auction: &Auction, units: u32, lp: &Lp, row: u32, set: u32) -> i128
    requires units { units ≤ 12 }
    requires row { row < row_count lp.now }
    requires set { set < 2 ^ value_count auction.now }
    requires positive { pos 0 <ℤ right_at lp.now row }
    requires divides { Divides (right_at lp.now row) (right_by_counts auction.now units set) }
    ensures value { right_at lp.now row *ℤ result ≡ right_by_counts auction.now units set }
    ensures size { IsWithin (12 * 10 ^ 12) result }
{
    exact_quotient(right_side_for(auction, units, set), lp.right(row))
}
