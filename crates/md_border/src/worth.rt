//! What interim odds and payments are worth to the designer.
ghost use Rattle.std.specs.Prelude.{◌≡◌, ◌^◌, ◌<◌, pos, ◌<ℤ◌, ◌*ℤ◌, slice_index};
ghost use Rattle.md_math.specs.Divisors.{IsLeastTerms};
ghost use Rattle.md_math.specs.Sizes.{IsWithin};
ghost use Rattle.md_setting.specs.Auction.{value_count, total_weight};
ghost use Rattle.md_setting.specs.AuctionShaped.{IsAuction};
ghost use Rattle.md_setting.specs.General.{general_of};
ghost use Rattle.md_mech.specs.declared.mechanism.Mechanism.{Mechanism};
ghost use Rattle.md_mech.specs.Mechanism.{IsMechanism};
ghost use Rattle.md_mech.specs.Value.{IsValueOf};
ghost use Rattle.md_border.specs.Odds.{IsInterim, HasOdds, HasPays};
ghost use Rattle.md_border.specs.Worth.{surplus_of, gain_of, gains_of, worth_of};

use crate::Interim;
use md_num::{Frac, add_product, product};
use md_setting::Auction;

/// The designer's expected objective, in least terms: what the item is worth where it is kept, and for each bidder what
/// it gains and pays on average by the weights of the values.
pub fn auction_worth(auction: &Auction, interim: &Interim) -> Frac
    requires fits { IsInterim auction.now interim.now }
    ensures value { result.num *ℤ (pos (total_weight auction.now.weights) *ℤ interim.now.den) ≡ worth_of auction.now interim.now *ℤ result.den }
    ensures least { IsLeastTerms result.num result.den }
    ensures num_size { IsWithin (2 ^ 114) result.num }
    ensures den_size { IsWithin (2 ^ 82) result.den }

    // It is the value of each mechanism of the auction that has the odds and the payments.
    ensures of_mechanisms { (m : Mechanism) → IsMechanism (general_of auction.now) m → HasOdds auction.now m interim.now.den interim.now.odds → HasPays auction.now m interim.now.den interim.now.pays → IsValueOf (general_of auction.now) m result }
{
    Frac::reduced(worth_over_whole(auction, interim), whole(auction, interim))
}

// The weight of all values, times the denominator.
fn whole(auction: &Auction, interim: &Interim) -> i128
    requires fits { IsInterim auction.now interim.now }
    ensures value { result ≡ pos (total_weight auction.now.weights) *ℤ interim.now.den }
    ensures positive { pos 0 <ℤ result }
    ensures size { IsWithin (2 ^ 82) result }
    ensures shaped { IsAuction auction.now }
{
    product(i128::from(auction.total()), interim.den)
}

// The objective in units of one over the whole.
fn worth_over_whole(auction: &Auction, interim: &Interim) -> i128
    requires fits { IsInterim auction.now interim.now }
    ensures value { result ≡ worth_of auction.now interim.now }
    ensures size { IsWithin (2 ^ 114) result }
{
    let kept = product(i128::from(auction.keep()), whole(auction, interim));
    add_product(kept, i128::from(auction.bidders()), gains(auction, interim))
}

// What a bidder adds to the objective, by the weights of its values.
fn gains(auction: &Auction, interim: &Interim) -> i128
    requires fits { IsInterim auction.now interim.now }
    ensures value { result ≡ gains_of auction.now interim.now }
    ensures size { IsWithin (2 ^ 110) result }
{
    let mut sum = 0;
    for kind in 0..auction.kinds() {
        let weight = i128::from(auction.weight(kind));
        sum = add_product(sum, weight, gain(auction, interim, kind));
    }
    sum
}

// What a bidder with a value of a kind adds to the objective: what the item is worth with it more than where it is kept,
// as often as it wins, and what it pays.
fn gain(auction: &Auction, interim: &Interim, kind: u32) -> i128
    requires fits { IsInterim auction.now interim.now }
    requires kind_in { kind < value_count auction.now }
    ensures value { result ≡ gain_of auction.now interim.now kind }
    ensures size { IsWithin (2 ^ 86) result }
{
    let item = product(surplus(auction, kind), interim.odds.get(kind as usize));
    add_product(
        item,
        i128::from(auction.revenue()),
        interim.pays.get(kind as usize),
    )
}

/// What the item is worth to the designer with a bidder whose value is of a kind, more than where it is kept.
pub fn surplus(auction: &Auction, kind: u32) -> i128
    requires { kind < value_count auction.now }
    ensures value { result ≡ surplus_of auction.now kind }
    ensures size { IsWithin 11000000 result }
{
    let welfare = i128::from(auction.welfare());
    product(welfare, i128::from(auction.value(kind))) - i128::from(auction.keep())
}
