//! How far the curve of virtual values is above the chords of pools.
ghost use Rattle.std.specs.Prelude.{◌≡◌, ◌<◌, ◌^◌, pos, ◌-ℤ◌, ◌*ℤ◌, ◌≤ℤ◌, ◌<ℤ◌};
ghost use Rattle.md_math.specs.Sizes.{IsWithin};
ghost use Rattle.md_setting.specs.Auction.{value_count};
ghost use Rattle.md_setting.specs.AuctionShaped.{IsAuction};
ghost use Rattle.md_iron_values.specs.Pools.{over_pool};
ghost use Rattle.md_iron_values.specs.VirtualValues.{virtual_to, weight_to};
ghost use Rattle.md_iron_values.specs.Gaps.{gap_in, least_to, scale_in};
ghost use Rattle.md_iron_pools.specs.Pooling.{IsPooling, pools_of};

use crate::chords::{gap, lowest_place, virtual_between, weight_between};
use crate::pools::AuctionPools;
use md_setting::Auction;

/// How far the curve is above the chord of a pool, times a scale.
#[derive(Clone, Copy)]
pub struct Gap {
    /// The distance times the scale.
    pub height: i128,
    /// The scale: the weight of the pool, or 1 where nothing is sold.
    pub scale: i128,
}

/// How far the curve of virtual values is at a value above the chord of its pool, or above the lowest place so far where the
/// value never wins.
pub fn chord_gap(auction: &Auction, pools: &AuctionPools, kind: u32) -> Gap
    requires kind { kind < value_count auction.now }
    requires pooling { IsPooling auction.now pools.now }
    ensures height { result.height ≡ gap_in auction.now (pools_of pools.now) kind }
    ensures scale { result.scale ≡ scale_in auction.now (pools_of pools.now) kind }
    ensures height_size { IsWithin (2 ^ 76) result.height }
    ensures scale_size { IsWithin 1000000 result.scale }
    ensures nonneg { pos 0 ≤ℤ result.height }
    ensures positive { pos 0 <ℤ result.scale }
{
    if kind < pools.reserve {
        return gap_above_least(auction, kind);
    }
    gap_above_chord(auction, pools, kind)
}

// How far the curve is at a value above the lowest place so far.
fn gap_above_least(auction: &Auction, kind: u32) -> Gap
    requires { kind < value_count auction.now }
    ensures height { result.height ≡ virtual_to auction.now kind -ℤ least_to (virtual_to auction.now) kind }
    ensures scale { result.scale ≡ pos 1 }
    ensures size { IsWithin (2 ^ 76) result.height }
    ensures shaped { IsAuction auction.now }
{
    let _shaped = auction.kinds();
    Gap {
        height: virtual_between(auction, lowest_place(auction, kind), kind),
        scale: 1,
    }
}

// How far the curve is at a value above the chord of its pool, times the weight of the pool.
fn gap_above_chord(auction: &Auction, pools: &AuctionPools, kind: u32) -> Gap
    requires kind { kind < value_count auction.now }
    requires pooling { IsPooling auction.now pools.now }
    ensures height { result.height ≡ (virtual_to auction.now kind -ℤ virtual_to auction.now ((pools_of pools.now).first kind)) *ℤ over_pool (weight_to auction.now) (pools_of pools.now) kind -ℤ over_pool (virtual_to auction.now) (pools_of pools.now) kind *ℤ (weight_to auction.now kind -ℤ weight_to auction.now ((pools_of pools.now).first kind)) }
    ensures scale { result.scale ≡ over_pool (weight_to auction.now) (pools_of pools.now) kind }
    ensures height_size { IsWithin (2 ^ 76) result.height }
    ensures scale_size { IsWithin 1000000 result.scale }
    ensures shaped { IsAuction auction.now }
{
    let pool = pools.by_kind[kind as usize];
    Gap {
        height: gap(auction, pool.first, pool.stop, kind),
        scale: chord_of(auction, pools, kind).weight,
    }
}

/// The chord of a pool: how much the curve rises over it.
#[derive(Clone, Copy)]
pub struct Chord {
    /// The virtual values of the pool together.
    pub rise: i128,
    /// The weight of the pool.
    pub weight: i128,
}

/// The chord of the pool of a value.
pub fn chord_of(auction: &Auction, pools: &AuctionPools, kind: u32) -> Chord
    requires kind { kind < value_count auction.now }
    requires pooling { IsPooling auction.now pools.now }
    ensures rise { result.rise ≡ over_pool (virtual_to auction.now) (pools_of pools.now) kind }
    ensures weight { result.weight ≡ over_pool (weight_to auction.now) (pools_of pools.now) kind }
    ensures rise_size { IsWithin (2 ^ 55) result.rise }
    ensures weight_size { IsWithin 1000000 result.weight }
    ensures positive { pos 0 <ℤ result.weight }
    ensures shaped { IsAuction auction.now }
{
    let pool = pools.by_kind[kind as usize];
    Chord {
        rise: virtual_between(auction, pool.first, pool.stop),
        weight: weight_between(auction, pool.first, pool.stop),
    }
}
