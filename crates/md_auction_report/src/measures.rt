//! What is measured of bidders by the kinds of their values.
ghost use Rattle.std.specs.Prelude.{◌≡◌, ◌<◌, ◌≤◌, ◌^◌, pos, ◌<ℤ◌, ◌*ℤ◌, neg_ℤ};
ghost use Rattle.md_math.specs.Lists.{number_at};
ghost use Rattle.md_math.specs.Sizes.{IsWithin};
ghost use Rattle.md_setting.specs.Auction.{value_count};
ghost use Rattle.md_mech.specs.Accepted.{number_limit};
ghost use Rattle.md_border.specs.Odds.{IsInterim, unit_excess_of};
ghost use Rattle.md_reduced.specs.Conditions.{IsInside};
ghost use Rattle.md_report.specs.Ratio.{IsRatio};
ghost use Rattle.md_auction_report.specs.Amounts.{amount_of};
ghost use Rattle.md_auction_report.specs.Shortfalls.{missed};
ghost use Rattle.md_auction_report.specs.Utility.{utility_at, regret_at, missing_at};

use crate::amount::Amount;
use md_border::{Interim, excess, right_side_for};
use md_num::{Frac, product};
use md_reduced::ReducedCondition;
use md_setting::Auction;

/// What is missed of a condition where so many units are sold.
pub(crate) fn missed(
    auction: &Auction,
    units: u32,
    interim: &Interim,
    condition: ReducedCondition,
) -> i128
    requires few_units { units ≤ 12 }
    requires fits { IsInterim auction.now interim.now }
    requires inside { IsInside (value_count auction.now) condition }
    ensures value { result ≡ missed auction.now units interim.now condition }
    ensures size { IsWithin (2 ^ 110) result }
{
    match condition {
        ReducedCondition::Truth { kind, other } => regret(auction, interim, kind, other),
        ReducedCondition::Rational { kind } => missing(auction, interim, kind),
        ReducedCondition::Cut { set } => unit_excess(auction, units, interim, set),
    }
}

/// What is measured of a bidder with a value of a kind.
pub(crate) fn amount(auction: &Auction, interim: &Interim, measure: Amount, kind: u32) -> i128
    requires fits { IsInterim auction.now interim.now }
    requires kind_in { kind < value_count auction.now }
    ensures value { result ≡ amount_of auction.now interim.now measure kind }
    ensures size { IsWithin (2 ^ 82) result }
{
    match measure {
        Amount::Payment => payment(auction, interim, kind),
        Amount::Item => item(auction, interim, kind, kind),
    }
}

/// What a bidder with a value has where it tells a value.
pub(crate) fn utility(auction: &Auction, interim: &Interim, kind: u32, told: u32) -> i128
    requires fits { IsInterim auction.now interim.now }
    requires kind_in { kind < value_count auction.now }
    requires told_in { told < value_count auction.now }
    ensures value { result ≡ utility_at auction.now interim.now kind told }
    ensures size { IsWithin (2 ^ 83) result }
{
    let item = item(auction, interim, kind, told);
    let paid = payment(auction, interim, told);
    item - paid
}

/// What a bidder that tells a value pays.
pub(crate) fn payment(auction: &Auction, interim: &Interim, told: u32) -> i128
    requires fits { IsInterim auction.now interim.now }
    requires told_in { told < value_count auction.now }
    ensures value { result ≡ number_at interim.now.pays told }
    ensures size { IsWithin (2 ^ 62) result }
{
    interim.pays.get(told as usize)
}

// What the item is worth to a bidder with a value, as often as it wins where it tells a value.
fn item(auction: &Auction, interim: &Interim, kind: u32, told: u32) -> i128
    requires fits { IsInterim auction.now interim.now }
    requires kind_in { kind < value_count auction.now }
    requires told_in { told < value_count auction.now }
    ensures value { result ≡ number_at auction.now.values kind *ℤ number_at interim.now.odds told }
    ensures size { IsWithin (2 ^ 82) result }
{
    let value = i128::from(auction.value(kind));
    product(value, interim.odds.get(told as usize))
}

// By how much the demands of a set of values are above as often as so many units can go to bidders with these values: as much
// as where one item is sold, less what further units serve.
fn unit_excess(auction: &Auction, units: u32, interim: &Interim, set: u32) -> i128
    requires few_units { units ≤ 12 }
    requires fits { IsInterim auction.now interim.now }
    requires set_in { set < 2 ^ value_count auction.now }
    ensures value { result ≡ unit_excess_of auction.now units interim.now set }
    ensures size { IsWithin (2 ^ 110) result }
{
    let further = right_side_for(auction, units, set) - right_side_for(auction, 1, set);
    excess(auction, interim, set) - product(interim.den, further)
}

// What it gains by telling another value than its own.
fn regret(auction: &Auction, interim: &Interim, kind: u32, other: u32) -> i128
    requires fits { IsInterim auction.now interim.now }
    requires kind_in { kind < value_count auction.now }
    requires other_in { other < value_count auction.now }
    ensures value { result ≡ regret_at auction.now interim.now kind other }
    ensures size { IsWithin (2 ^ 84) result }
{
    let by_report = utility(auction, interim, kind, other);
    let by_truth = utility(auction, interim, kind, kind);
    by_report - by_truth
}

// What it gets less than nothing.
fn missing(auction: &Auction, interim: &Interim, kind: u32) -> i128
    requires fits { IsInterim auction.now interim.now }
    requires kind_in { kind < value_count auction.now }
    ensures value { result ≡ missing_at auction.now interim.now kind }
    ensures size { IsWithin (2 ^ 83) result }
{
    opposite(utility(auction, interim, kind, kind))
}

fn opposite(number: i128) -> i128
    requires { IsWithin (2 ^ 83) number }
    ensures value { result ≡ neg_ℤ number }
    ensures size { IsWithin (2 ^ 83) result }
{
    -number
}

/// A number over the denominator, in least terms.
pub(crate) fn over(number: i128, den: i128) -> Frac
    requires size { IsWithin (2 ^ 110) number }
    requires den_size { IsWithin number_limit den }
    requires positive { pos 0 <ℤ den }
    ensures { IsRatio number den result }
{
    Frac::reduced(number, den)
}
