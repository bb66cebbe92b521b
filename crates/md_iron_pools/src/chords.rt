//! Chords of the curve that the sums of virtual values are over the sums of weights.
ghost use Rattle.std.specs.Prelude.{◌≡◌, ℕ, ◌+◌, ◌<◌, ◌≤◌, ◌^◌, true, false, ◌-ℤ◌, ◌*ℤ◌, ◌≤ℤ◌, ◌<ℤ◌};
ghost use Rattle.md_math.specs.Sizes.{IsWithin};
ghost use Rattle.md_setting.specs.Auction.{value_count};
ghost use Rattle.md_setting.specs.AuctionShaped.{IsAuction};
ghost use Rattle.md_iron_values.specs.VirtualValues.{weight_to, virtual_to};
ghost use Rattle.md_iron_values.specs.Pools.{IsLow};
ghost use Rattle.md_iron_pools.specs.ByRule.{IsHigher};

use crate::sums::{virtual_below, weight_below};
use md_num::cross_difference;
use md_setting::Auction;

/// The last of the places up to one at which the curve is lowest.
pub(crate) fn lowest_place(auction: &Auction, end: u32) -> u32
    requires { end ≤ value_count auction.now }
    ensures inside { result ≤ end }
    ensures least { (x : ℕ) → x ≤ end → virtual_to auction.now result ≤ℤ virtual_to auction.now x }
    ensures last { (x : ℕ) → result < x → x ≤ end → virtual_to auction.now result <ℤ virtual_to auction.now x }
{
    let _shaped = auction.kinds();
    let mut lowest = 0;
    for place in 1..end + 1 {
        if is_no_higher(auction, place, lowest) {
            lowest = place;
        }
    }
    lowest
}

// Whether the curve at a place is at most that at another one.
fn is_no_higher(auction: &Auction, place: u32, other: u32) -> bool
    requires place { place ≤ value_count auction.now }
    requires other { other ≤ value_count auction.now }
    ensures low { result ≡ true → virtual_to auction.now place ≤ℤ virtual_to auction.now other }
    ensures high { result ≡ false → virtual_to auction.now other <ℤ virtual_to auction.now place }
{
    virtual_between(auction, other, place) <= 0
}

/// The first place behind another one whose chord from there is lowest.
pub(crate) fn lowest_stop(auction: &Auction, first: u32) -> u32
    requires { first < value_count auction.now }
    ensures behind { first < result }
    ensures inside { result ≤ value_count auction.now }
    ensures low { (x : ℕ) → first ≤ x → x ≤ value_count auction.now → IsLow (weight_to auction.now) (virtual_to auction.now) first result x }
    ensures soonest { (x : ℕ) → first < x → x < result → IsHigher (weight_to auction.now) (virtual_to auction.now) first result x }
{
    let _shaped = auction.kinds();
    let mut stop = first + 1;
    for place in first + 2..auction.kinds() + 1 {
        if is_under(auction, first, stop, place) {
            stop = place;
        }
    }
    stop
}

// Whether the curve at a place is under the chord between two others.
fn is_under(auction: &Auction, first: u32, stop: u32, place: u32) -> bool
    requires first { first < stop }
    requires stop { stop ≤ value_count auction.now }
    requires place { place ≤ value_count auction.now }
    ensures above { result ≡ false → IsLow (weight_to auction.now) (virtual_to auction.now) first stop place }
    ensures under { result ≡ true → IsHigher (weight_to auction.now) (virtual_to auction.now) first place stop }
    ensures shaped { IsAuction auction.now }
{
    gap(auction, first, stop, place) < 0
}

/// How far the curve at a place is above the chord between two others, times the weight between them.
pub(crate) fn gap(auction: &Auction, first: u32, stop: u32, place: u32) -> i128
    requires first { first ≤ value_count auction.now }
    requires stop { stop ≤ value_count auction.now }
    requires place { place ≤ value_count auction.now }
    ensures value { result ≡ (virtual_to auction.now place -ℤ virtual_to auction.now first) *ℤ (weight_to auction.now stop -ℤ weight_to auction.now first) -ℤ (virtual_to auction.now stop -ℤ virtual_to auction.now first) *ℤ (weight_to auction.now place -ℤ weight_to auction.now first) }
    ensures size { IsWithin (2 ^ 76) result }
    ensures shaped { IsAuction auction.now }
{
    cross_difference(
        virtual_between(auction, first, place),
        weight_between(auction, first, stop),
        virtual_between(auction, first, stop),
        weight_between(auction, first, place),
    )
}

/// How much the curve rises from one place to another.
pub(crate) fn virtual_between(auction: &Auction, first: u32, stop: u32) -> i128
    requires first { first ≤ value_count auction.now }
    requires stop { stop ≤ value_count auction.now }
    ensures value { result ≡ virtual_to auction.now stop -ℤ virtual_to auction.now first }
    ensures size { IsWithin (2 ^ 55) result }
{
    virtual_below(auction, stop) - virtual_below(auction, first)
}

/// The weight of the values between two places.
pub(crate) fn weight_between(auction: &Auction, first: u32, stop: u32) -> i128
    requires first { first ≤ value_count auction.now }
    requires stop { stop ≤ value_count auction.now }
    ensures value { result ≡ weight_to auction.now stop -ℤ weight_to auction.now first }
    ensures size { IsWithin 1000000 result }
    ensures shaped { IsAuction auction.now }
{
    i128::from(weight_below(auction, stop)) - i128::from(weight_below(auction, first))
}
