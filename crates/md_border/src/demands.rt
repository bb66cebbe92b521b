//! The demands of values, and by how much those of a set are above its right side.
ghost use Rattle.std.specs.Prelude.{◌≡◌, ◌*◌, ◌^◌, ◌<◌, pos, ◌≤ℤ◌, ◌<ℤ◌, if◌then◌else◌};
ghost use Rattle.md_math.specs.Sizes.{IsWithin};
ghost use Rattle.md_setting.specs.Auction.{value_count};
ghost use Rattle.md_setting.specs.AuctionShaped.{IsAuction};
ghost use Rattle.md_setting.specs.General.{general_of};
ghost use Rattle.md_mech.specs.declared.mechanism.Mechanism.{Mechanism};
ghost use Rattle.md_mech.specs.Mechanism.{IsMechanism};
ghost use Rattle.md_math.specs.Sets.{member};
ghost use Rattle.md_border.specs.Odds.{IsInterim, HasOdds, weight_given, demand_of, demands_in, excess_of};

use crate::Interim;
use crate::sides::{has_kind, right_side};
use md_num::product;
use md_setting::Auction;

/// What all bidders together ask for at a kind: the weight of the profiles in which they have this value, each as often
/// as the odds say, in units of one over the denominator.
pub fn demand(auction: &Auction, interim: &Interim, kind: u32) -> i128
    requires fits { IsInterim auction.now interim.now }
    requires kind_in { kind < value_count auction.now }
    ensures value { result ≡ demand_of auction.now interim.now kind }
    ensures nonneg { pos 0 ≤ℤ result }
    ensures size { result <ℤ pos (2 ^ 106) }
{
    product(
        weight_of_all(auction, kind),
        interim.odds.get(kind as usize),
    )
}

/// By how much the demands of a set are above its right side, in units of one over the denominator.
pub fn excess(auction: &Auction, interim: &Interim, set: u32) -> i128
    requires fits { IsInterim auction.now interim.now }
    requires set_in { set < 2 ^ value_count auction.now }
    ensures value { result ≡ excess_of auction.now interim.now set }
    ensures size { IsWithin (2 ^ 110) result }

    // Border's condition: where some mechanism of the auction has the odds, whether it is truthful or not, no set has a
    // positive excess.
    ensures border { (m : Mechanism) → IsMechanism (general_of auction.now) m → HasOdds auction.now m interim.now.den interim.now.odds → result ≤ℤ pos 0 }
{
    demands(auction, interim, set) - product(interim.den, right_side(auction, set))
}

// The demands of the kinds in a set together.
fn demands(auction: &Auction, interim: &Interim, set: u32) -> i128
    requires fits { IsInterim auction.now interim.now }
    ensures value { result ≡ demands_in auction.now interim.now set }
    ensures size { IsWithin (12 * 2 ^ 106) result }
{
    let mut sum = 0;
    for kind in 0..auction.kinds() {
        sum += demand_if_in(auction, interim, set, kind);
    }
    sum
}

// The demand of a kind in the set, and 0 of others.
fn demand_if_in(auction: &Auction, interim: &Interim, set: u32, kind: u32) -> i128
    requires fits { IsInterim auction.now interim.now }
    requires kind_in { kind < value_count auction.now }
    requires few { kind < 12 }
    ensures value { result ≡ (if member set kind then demand_of auction.now interim.now kind else pos 0) }
    ensures size { IsWithin (2 ^ 106) result }
{
    if has_kind(set, kind) {
        demand(auction, interim, kind)
    } else {
        0
    }
}

/// The weight of the profiles in which a bidder has a value of a kind, for all bidders together.
pub fn weight_of_all(auction: &Auction, kind: u32) -> i128
    requires { kind < value_count auction.now }
    ensures value { result ≡ pos (auction.now.bidders * weight_given auction.now kind) }
    ensures size { result ≤ℤ pos (12 * 10 ^ 12) }
    ensures shaped { IsAuction auction.now }
{
    let bidders = auction.bidders();
    let others = (auction.total() as u64).pow(bidders - 1);
    i128::from(u64::from(bidders) * (auction.weight(kind) * others))
}
