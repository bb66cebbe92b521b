//! Who wins at a draw.
ghost use Rattle.std.specs.Prelude.{◌≡◌, ◌<◌, ◌≤◌, length, slice_index};
ghost use Rattle.md_iron_pools.specs.Pooling.{pools_of};
ghost use Rattle.md_threshold_laws.specs.Rule.{comes_to, draws_at, is_split, place_of, wins_at};
ghost use Rattle.md_threshold.specs.Kinds.{AreKinds};

use crate::counts::{beside_with, is_beside, units_with};
use md_iron_pools::AuctionPools;

/// How many draws tell who wins.
pub(crate) fn draws_at(pools: &AuctionPools, units: u32, profile: &[u8]) -> u32
    requires kinds { AreKinds pools.now profile.now }
    ensures value { result ≡ draws_at units (pools_of pools.now) profile.now }
    ensures few { result ≤ 12 }
{
    let mut count = 0;
    for place in 0..profile.len() {
        if is_split(pools, units, profile, place) {
            count += 1;
        }
    }
    if count == 0 { 1 } else { count }
}

// Whether the pool of a bidder is split.
fn is_split(pools: &AuctionPools, units: u32, profile: &[u8], bidder: usize) -> bool
    requires kinds { AreKinds pools.now profile.now }
    requires bidder { bidder < length profile.now }
    ensures { result ≡ is_split units (pools_of pools.now) profile.now (slice_index profile.now bidder) }
{
    let kind = u32::from(profile[bidder]);
    let won = units_with(pools, units, profile, bidder, kind);
    0 < won && won < beside_with(pools, profile, bidder, kind)
}

/// Whether a bidder wins at a draw.
pub(crate) fn wins_at(
    pools: &AuctionPools,
    units: u32,
    profile: &[u8],
    draw: u32,
    bidder: usize,
) -> bool
    requires kinds { AreKinds pools.now profile.now }
    requires bidder { bidder < length profile.now }
    requires draw { draw < 12 }
    ensures { result ≡ wins_at units (pools_of pools.now) profile.now draw bidder }
{
    let kind = u32::from(profile[bidder]);
    let bidders = beside_with(pools, profile, bidder, kind);
    let won = units_with(pools, units, profile, bidder, kind);
    comes_to(bidders, won, draw, place_of(pools, profile, bidder))
}

// The place of a bidder among those of its pool.
fn place_of(pools: &AuctionPools, profile: &[u8], bidder: usize) -> u32
    requires kinds { AreKinds pools.now profile.now }
    requires bidder { bidder < length profile.now }
    ensures { result ≡ place_of (pools_of pools.now) profile.now bidder }
{
    let kind = u32::from(profile[bidder]);
    let mut count = 0;
    for place in 0..bidder {
        if is_beside(pools, kind, u32::from(profile[place])) {
            count += 1;
        }
    }
    count
}

// Whether one of so many units comes to a place, from the one that a draw names on around the circle of so many bidders.
fn comes_to(bidders: u32, units: u32, draw: u32, place: u32) -> bool
    requires few { units ≤ 12 }
    requires most { units ≤ bidders }
    requires draw { draw < 12 }
    ensures { result ≡ comes_to bidders units draw place }
{
    let mut comes = false;
    for unit in 0..units {
        if (draw + unit) % bidders == place {
            comes = true;
        }
    }
    comes
}
