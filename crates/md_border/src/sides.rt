//! The right sides of Border's conditions.
ghost use Rattle.std.specs.Prelude.{◌≡◌, ℕ, ◌+◌, ◌*◌, ◌^◌, ◌<◌, ◌≤◌, pos, ◌≤ℤ◌, length, slice_index, if◌then◌else◌};
ghost use Rattle.md_math.specs.Sets.{member};
ghost use Rattle.md_setting.specs.Auction.{SymmetricAuction, value_count, total_weight};
ghost use Rattle.md_setting.specs.AuctionShaped.{IsAuction};
ghost use Rattle.md_border.specs.Sets.{sum_in};
ghost use Rattle.md_border.specs.Sides.{right_of, right_by_counts, right_by_power};

use md_setting::Auction;

/// The weight of the profiles in which some bidder's value is in the set.
pub fn right_side(auction: &Auction, set: u32) -> i128
    requires set_in { set < 2 ^ value_count auction.now }
    ensures value { result ≡ right_of auction.now set }

    // The same by how many bidders have each kind of value, and by the weights of all profiles and of those in which
    // no bidder's value is in the set.
    ensures counts { result ≡ right_by_counts auction.now 1 set }
    ensures power { result ≡ right_by_power auction.now set }

    ensures nonneg { pos 0 ≤ℤ result }
    ensures size { result ≤ℤ pos (10 ^ 12) }
{
    right_side_for(auction, 1, set)
}

/// How often units can go to bidders with values in a set: at each profile of values as many units as there are such bidders,
/// or all units where there are more of them, by the weight of the profile.
pub fn right_side_for(auction: &Auction, units: u32, set: u32) -> i128
    requires few_units { units ≤ 12 }
    requires set_in { set < 2 ^ value_count auction.now }
    ensures value { result ≡ right_by_counts auction.now units set }
    ensures nonneg { pos 0 ≤ℤ result }
    ensures size { result ≤ℤ pos (units * 10 ^ 12) }
    ensures shaped { IsAuction auction.now }
{
    let inside = weight_in(auction, set);
    let outside = auction.total() as u64 - inside;
    i128::from(served(inside, outside, auction.bidders(), units))
}

// The same for so many bidders, by the weights of the values in a set and of the other ones together. A first bidder whose value
// is in the set takes a unit. There are at most 12 bidders, and so fewer than 2 ^ 13 calls.
fn served(inside: u64, outside: u64, bidders: u32, units: u32) -> u64
    requires few_units { units ≤ 12 }
    requires few_profiles { (inside + outside) ^ bidders ≤ 10 ^ 12 }
    ensures value { (a : SymmetricAuction) (set : ℕ) → length a.weights ≡ value_count a → sum_in set a.weights ≡ inside → total_weight a.weights ≡ inside + outside → pos result ≡ right_by_counts (record a { bidders = bidders }) units set }
    ensures size { result ≤ units * (inside + outside) ^ bidders }
{
    if bidders == 0 || units == 0 {
        return 0;
    }
    let others = bidders - 1;
    let all = (inside + outside).pow(others);
    inside * (all + served(inside, outside, others, units - 1))
        + outside * served(inside, outside, others, units)
}

// The weight of the kinds of a set together.
fn weight_in(auction: &Auction, set: u32) -> u64
    ensures value { result ≡ sum_in set auction.now.weights }
    ensures most { result ≤ total_weight auction.now.weights }
    ensures shaped { IsAuction auction.now }
{
    let mut sum = 0;
    for kind in 0..auction.kinds() {
        sum += weight_if_in(auction, set, kind);
    }
    sum
}

// The weight of a kind in the set, and 0 of others.
fn weight_if_in(auction: &Auction, set: u32, kind: u32) -> u64
    requires { kind < value_count auction.now }
    ensures value { result ≡ (if member set kind then slice_index auction.now.weights kind else 0) }
    ensures size { result ≤ 1000000 }
{
    let weight = auction.weight(kind);
    if has_kind(set, kind) { weight } else { 0 }
}

/// Whether a set has a kind.
#[tactic(auto, unfolding(md_math::specs::Sets::member))]
pub fn has_kind(set: u32, kind: u32) -> bool
    requires { kind < 12 }
    ensures { result ≡ member set kind }
{
    (set >> kind) % 2 == 1
}
