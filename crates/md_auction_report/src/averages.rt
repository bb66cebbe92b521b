//! What is expected of all bidders together.
ghost use Rattle.std.specs.Prelude.{◌≡◌, ◌*◌, ◌^◌, pos, ◌<ℤ◌, ◌*ℤ◌, slice_index};
ghost use Rattle.md_math.specs.Sizes.{IsWithin};
ghost use Rattle.md_math.specs.Sums.{sum_to};
ghost use Rattle.md_setting.specs.Auction.{value_count, total_weight};
ghost use Rattle.md_border.specs.Odds.{IsInterim};
ghost use Rattle.md_auction_report.specs.Amounts.{amount_of};
ghost use Rattle.md_auction_report.specs.Averages.{by_weight, of_all, IsExpected};

use crate::amount::Amount;
use crate::measures::amount;
use md_border::Interim;
use md_num::{Frac, add_product, product};
use md_setting::Auction;

/// What is expected of all bidders, in least terms.
pub(crate) fn expected(auction: &Auction, interim: &Interim, measure: Amount) -> Frac
    requires { IsInterim auction.now interim.now }
    ensures { IsExpected auction.now interim.now (amount_of auction.now interim.now measure) result }
{
    Frac::reduced(of_all(auction, interim, measure), whole(auction, interim))
}

// The weight of all values, times the denominator.
fn whole(auction: &Auction, interim: &Interim) -> i128
    requires { IsInterim auction.now interim.now }
    ensures value { result ≡ pos (total_weight auction.now.weights) *ℤ interim.now.den }
    ensures positive { pos 0 <ℤ result }
    ensures size { IsWithin (2 ^ 82) result }
{
    product(i128::from(auction.total()), interim.den)
}

// The sum over the values by their weights, for all bidders.
fn of_all(auction: &Auction, interim: &Interim, measure: Amount) -> i128
    requires { IsInterim auction.now interim.now }
    ensures value { result ≡ of_all auction.now (amount_of auction.now interim.now measure) }
    ensures size { IsWithin (12 * 2 ^ 106) result }
{
    let bidders = i128::from(auction.bidders());
    product(bidders, over_values(auction, interim, measure))
}

// The same for one bidder.
fn over_values(auction: &Auction, interim: &Interim, measure: Amount) -> i128
    requires { IsInterim auction.now interim.now }
    ensures value { result ≡ by_weight auction.now (amount_of auction.now interim.now measure) }
    ensures size { IsWithin (2 ^ 106) result }
{
    let mut sum = 0;
    for kind in 0..auction.kinds() {
        let weight = i128::from(auction.weight(kind));
        sum = add_product(sum, weight, amount(auction, interim, measure, kind));
    }
    sum
}
