//! How often a bidder wins, and what it pays, where the others have the values of a profile.
ghost use Rattle.std.specs.Prelude.{◌≡◌, ◌*◌, ◌<◌, ◌≤◌, pos, length};
ghost use Rattle.md_math.specs.Sizes.{IsWithin};
ghost use Rattle.md_iron_values.specs.Odds.{step_of};
ghost use Rattle.md_iron_pools.specs.Pooling.{IsPooling, pools_of};
ghost use Rattle.md_threshold_laws.specs.Rule.{chance_with, draw_count, payment};
ghost use Rattle.md_threshold.specs.Kinds.{AreKinds};

use crate::counts::{beside_with, units_with};
use md_iron_pools::AuctionPools;
use md_num::add_product;
use md_setting::Auction;

/// How many draws there are, each as likely as any other.
#[tactic(auto, unfolding(md_threshold_laws::specs::Rule::draw_count))]
pub(crate) fn draw_count() -> u32
    ensures value { result ≡ draw_count }
    ensures number { result ≡ 27720 }
{
    27720
}

/// At how many draws a bidder wins with a value.
pub(crate) fn chance_with(
    pools: &AuctionPools,
    units: u32,
    profile: &[u8],
    bidder: usize,
    kind: u32,
) -> u32
    requires kinds { AreKinds pools.now profile.now }
    requires kind { kind < length pools.now.by_kind.items }
    ensures value { result ≡ chance_with units (pools_of pools.now) profile.now bidder kind }
    ensures size { result ≤ 27720 }
{
    let bidders = beside_with(pools, profile, bidder, kind);
    if bidders == 0 {
        return 0;
    }
    units_with(pools, units, profile, bidder, kind) * (draw_count() / bidders)
}

// At how many draws more it wins with a value than with the one before it.
fn step_with(pools: &AuctionPools, units: u32, profile: &[u8], bidder: usize, kind: u32) -> i128
    requires kinds { AreKinds pools.now profile.now }
    requires kind { kind < length pools.now.by_kind.items }
    ensures value { result ≡ step_of (λ v. pos (chance_with units (pools_of pools.now) profile.now bidder v)) kind }
    ensures size { IsWithin 27720 result }
{
    let chance = i128::from(chance_with(pools, units, profile, bidder, kind));
    if kind == 0 {
        return chance;
    }
    chance - i128::from(chance_with(pools, units, profile, bidder, kind - 1))
}

/// What a bidder pays over all draws: each value up to its own, as often as its chance grows there.
pub(crate) fn payment(
    auction: &Auction,
    pools: &AuctionPools,
    units: u32,
    profile: &[u8],
    bidder: usize,
) -> i128
    requires pooling { IsPooling auction.now pools.now }
    requires kinds { AreKinds pools.now profile.now }
    requires bidder { bidder < length profile.now }
    ensures value { result ≡ payment auction.now units (pools_of pools.now) bidder profile.now }
    ensures size { IsWithin (12 * (1000000 * 27720)) result }
{
    let _shaped = auction.kinds();
    let mut sum = 0;
    for kind in 0..u32::from(profile[bidder]) + 1 {
        let step = step_with(pools, units, profile, bidder, kind);
        sum = add_product(sum, i128::from(auction.value(kind)), step);
    }
    sum
}
