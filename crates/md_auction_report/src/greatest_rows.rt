//! Of some rows the one at which most is missed.
ghost use Rattle.std.specs.Prelude.{◌≡◌, ◌⊎◌, ◌<◌, ◌≤◌, ◌^◌, ◌≤ℤ◌, ◌<ℤ◌, ◌↔◌, IsTrue, length};
ghost use Rattle.md_math.specs.Sizes.{IsWithin};
ghost use Rattle.md_setting.specs.Auction.{value_count};
ghost use Rattle.md_lp.specs.Cuts.{AreCuts};
ghost use Rattle.md_border.specs.Odds.{IsInterim};
ghost use Rattle.md_reduced.specs.Conditions.{conditions_of};
ghost use Rattle.md_auction_report.specs.Greatest.{IsGreatestIn, IsGreatestRow};
ghost use Rattle.md_auction_report.specs.Shortfalls.{missed_at};

use crate::greatest::Greatest;
use crate::measures::{missed, over};
use md_border::Interim;
use md_lp::Sets;
use md_reduced::condition_at;
use md_setting::Auction;

/// Of the rows from one on and before another, the condition of the first one at which most is missed.
pub(crate) fn greatest_of(
    auction: &Auction,
    units: u32,
    interim: &Interim,
    cuts: &Sets,
    start: u32,
    end: u32,
) -> Greatest
    requires few_units { units ≤ 12 }
    requires fits { IsInterim auction.now interim.now }
    requires cuts { AreCuts (value_count auction.now) cuts.now }
    requires some { start < end }
    requires inside { end ≤ length (conditions_of (value_count auction.now) cuts.now) }
    ensures { IsGreatestIn auction.now units interim.now cuts.now start end result }
{
    let row = greatest_row(auction, units, interim, cuts, start, end);
    let condition = condition_at(auction, cuts, row);
    Greatest {
        condition,
        amount: over(missed(auction, units, interim, condition), interim.den),
    }
}

// The row of it.
fn greatest_row(
    auction: &Auction,
    units: u32,
    interim: &Interim,
    cuts: &Sets,
    start: u32,
    end: u32,
) -> u32
    requires few_units { units ≤ 12 }
    requires fits { IsInterim auction.now interim.now }
    requires cuts { AreCuts (value_count auction.now) cuts.now }
    requires some { start < end }
    requires inside { end ≤ length (conditions_of (value_count auction.now) cuts.now) }
    ensures { IsGreatestRow auction.now units interim.now cuts.now start end result }
{
    let mut greatest = start;
    for row in start + 1..end {
        greatest = greater(auction, units, interim, cuts, greatest, row);
    }
    greatest
}

// The one of two rows at which more is missed, and the first where it is the same.
fn greater(
    auction: &Auction,
    units: u32,
    interim: &Interim,
    cuts: &Sets,
    first: u32,
    second: u32,
) -> u32
    requires few_units { units ≤ 12 }
    requires fits { IsInterim auction.now interim.now }
    requires cuts { AreCuts (value_count auction.now) cuts.now }
    requires first_in { first < length (conditions_of (value_count auction.now) cuts.now) }
    requires second_in { second < length (conditions_of (value_count auction.now) cuts.now) }
    ensures { let missed = missed_at auction.now units interim.now cuts.now in
        ((result ≡ first) × (missed second ≤ℤ missed first))
        ⊎ ((result ≡ second) × (missed first <ℤ missed second)) }
{
    let before = missed_in_row(auction, units, interim, cuts, first);
    let after = missed_in_row(auction, units, interim, cuts, second);
    if is_less(before, after) {
        second
    } else {
        first
    }
}

/// What is missed of the condition of a row.
pub(crate) fn missed_in_row(
    auction: &Auction,
    units: u32,
    interim: &Interim,
    cuts: &Sets,
    row: u32,
) -> i128
    requires few_units { units ≤ 12 }
    requires fits { IsInterim auction.now interim.now }
    requires cuts { AreCuts (value_count auction.now) cuts.now }
    requires inside { row < length (conditions_of (value_count auction.now) cuts.now) }
    ensures value { result ≡ missed_at auction.now units interim.now cuts.now row }
    ensures size { IsWithin (2 ^ 110) result }
{
    missed(auction, units, interim, condition_at(auction, cuts, row))
}

fn is_less(first: i128, second: i128) -> bool
    ensures { IsTrue result ↔ (first <ℤ second) }
{
    first < second
}
