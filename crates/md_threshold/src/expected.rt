//! What is expected of a threshold auction: its value, revenue and welfare.
ghost use Rattle.std.specs.Prelude.{◌≡◌, ◌*◌, ◌^◌, ◌<◌, ◌≤◌, pos, ◌+ℤ◌, ◌*ℤ◌, ◌<ℤ◌};
ghost use Rattle.md_math.specs.Lists.{number_at};
ghost use Rattle.md_math.specs.Sizes.{IsWithin};
ghost use Rattle.md_setting.specs.Auction.{value_count, total_weight};
ghost use Rattle.md_setting.specs.AuctionShaped.{IsAuction};
ghost use Rattle.md_mech.specs.Accepted.{number_limit};
ghost use Rattle.md_border.specs.Odds.{IsInterim};
ghost use Rattle.md_border.specs.Worth.{gain_of};
ghost use Rattle.md_report.specs.Ratio.{IsRatio};
ghost use Rattle.md_auction_report.specs.Averages.{by_weight, of_all};
ghost use Rattle.md_threshold.specs.Interims.{amount_of, worth_in};

use crate::amount::Amount;
use md_border::{Interim, surplus};
use md_num::{Frac, add_product, product};
use md_setting::Auction;

/// What the mechanism is worth to the designer, in least terms.
pub(crate) fn value(auction: &Auction, units: u32, interim: &Interim) -> Frac
    requires units { units ≤ 12 }
    requires fits { IsInterim auction.now interim.now }
    ensures { IsRatio (worth_in auction.now units interim.now) (pos (total_weight auction.now.weights) *ℤ interim.now.den) result }
{
    Frac::reduced(worth(auction, units, interim), whole(auction, interim))
}

/// What is expected of all bidders, in least terms.
pub(crate) fn expected(auction: &Auction, interim: &Interim, measure: Amount) -> Frac
    requires { IsInterim auction.now interim.now }
    ensures { IsRatio (of_all auction.now (amount_of auction.now interim.now measure)) (pos (total_weight auction.now.weights) *ℤ interim.now.den) result }
{
    Frac::reduced(of_all(auction, interim, measure), whole(auction, interim))
}

// The weight of all values, times the denominator.
fn whole(auction: &Auction, interim: &Interim) -> i128
    requires { IsInterim auction.now interim.now }
    ensures value { result ≡ pos (total_weight auction.now.weights) *ℤ interim.now.den }
    ensures positive { pos 0 <ℤ result }
    ensures size { IsWithin (1000000 * number_limit) result }
    ensures shaped { IsAuction auction.now }
{
    product(i128::from(auction.total()), interim.den)
}

// What all units are worth where they are kept, and what the bidders add to that.
fn worth(auction: &Auction, units: u32, interim: &Interim) -> i128
    requires units { units ≤ 12 }
    requires fits { IsInterim auction.now interim.now }
    ensures value { result ≡ worth_in auction.now units interim.now }
    ensures size { IsWithin (2 ^ 125) result }
{
    let all = of_all(auction, interim, Amount::Gain);
    add_product(all, kept(auction, units), whole(auction, interim))
}

// What all units are worth where they are kept.
fn kept(auction: &Auction, units: u32) -> i128
    requires { units ≤ 12 }
    ensures value { result ≡ auction.now.keep *ℤ pos units }
    ensures size { IsWithin (1000000 * 12) result }
{
    product(i128::from(auction.keep()), i128::from(units))
}

// The sum over the values by their weights, for all bidders.
fn of_all(auction: &Auction, interim: &Interim, measure: Amount) -> i128
    requires { IsInterim auction.now interim.now }
    ensures value { result ≡ of_all auction.now (amount_of auction.now interim.now measure) }
    ensures size { IsWithin (12 * (12 * (1000000 * 2 ^ 89))) result }
{
    let bidders = i128::from(auction.bidders());
    product(bidders, over_values(auction, interim, measure))
}

// The same for one bidder.
fn over_values(auction: &Auction, interim: &Interim, measure: Amount) -> i128
    requires { IsInterim auction.now interim.now }
    ensures value { result ≡ by_weight auction.now (amount_of auction.now interim.now measure) }
    ensures size { IsWithin (12 * (1000000 * 2 ^ 89)) result }
    ensures shaped { IsAuction auction.now }
{
    let mut sum = 0;
    for kind in 0..auction.kinds() {
        let weight = i128::from(auction.weight(kind));
        sum = add_product(sum, weight, amount(auction, interim, measure, kind));
    }
    sum
}

// What is measured of a bidder with a value.
fn amount(auction: &Auction, interim: &Interim, measure: Amount, kind: u32) -> i128
    requires fits { IsInterim auction.now interim.now }
    requires kind { kind < value_count auction.now }
    ensures value { result ≡ amount_of auction.now interim.now measure kind }
    ensures size { IsWithin (2 ^ 89) result }
    ensures shaped { IsAuction auction.now }
{
    let _shaped = auction.kinds();
    match measure {
        Amount::Gain => gain(auction, interim, kind),
        Amount::Item => item(auction, interim, kind),
        Amount::Payment => interim.pays.get(kind as usize),
    }
}

// What it adds to the objective.
fn gain(auction: &Auction, interim: &Interim, kind: u32) -> i128
    requires fits { IsInterim auction.now interim.now }
    requires kind { kind < value_count auction.now }
    ensures { result ≡ gain_of auction.now interim.now kind }
{
    let item = product(surplus(auction, kind), interim.odds.get(kind as usize));
    add_product(
        item,
        i128::from(auction.revenue()),
        interim.pays.get(kind as usize),
    )
}

// Its value as often as it wins.
fn item(auction: &Auction, interim: &Interim, kind: u32) -> i128
    requires fits { IsInterim auction.now interim.now }
    requires kind { kind < value_count auction.now }
    ensures { result ≡ number_at auction.now.values kind *ℤ number_at interim.now.odds kind }
{
    let value = i128::from(auction.value(kind));
    product(value, interim.odds.get(kind as usize))
}
