//! Sums of weights and of virtual values.
ghost use Rattle.std.specs.Prelude.{◌≡◌, ◌+◌, ◌*◌, ◌<◌, ◌≤◌, ◌^◌, pos, ◌-ℤ◌, ◌*ℤ◌, ◌≤ℤ◌, slice_index};
ghost use Rattle.md_math.specs.Lists.{number_at};
ghost use Rattle.md_math.specs.Sizes.{IsWithin};
ghost use Rattle.md_setting.specs.Auction.{value_count, total_weight};
ghost use Rattle.md_setting.specs.AuctionShaped.{IsAuction};
ghost use Rattle.md_iron_values.specs.Weights.{weight_before};
ghost use Rattle.md_iron_values.specs.VirtualValues.{weight_from, virtual_value, virtual_to};

use md_border::surplus;
use md_num::{add_product, product};
use md_setting::Auction;

/// The weight of the values below a place together.
pub(crate) fn weight_below(auction: &Auction, place: u32) -> u64
    requires { place ≤ value_count auction.now }
    ensures value { result ≡ weight_before (slice_index auction.now.weights) place }
    ensures size { result ≤ total_weight auction.now.weights }
    ensures small { result ≤ 1000000 }
    ensures shaped { IsAuction auction.now }
{
    let _shaped = auction.kinds();
    let mut sum = 0;
    for kind in 0..place {
        sum += auction.weight(kind);
    }
    sum
}

/// The weight of the values from a place on together.
pub fn weight_from(auction: &Auction, place: u32) -> i128
    requires { place ≤ value_count auction.now }
    ensures value { result ≡ weight_from auction.now place }
    ensures nonneg { pos 0 ≤ℤ result }
    ensures size { IsWithin 1000000 result }
    ensures shaped { IsAuction auction.now }
{
    let below = weight_below(auction, place);
    i128::from(auction.total() as u64 - below)
}

// What bidders pay together who have values from a place on and pay the value there, by weight; nobody does behind the last
// value.
fn asked(auction: &Auction, place: u32) -> i128
    requires { place ≤ value_count auction.now }
    ensures value { result ≡ number_at auction.now.values place *ℤ weight_from auction.now place }
    ensures size { IsWithin (10 ^ 12) result }
{
    if place >= auction.kinds() {
        return 0;
    }
    product(
        i128::from(auction.value(place)),
        weight_from(auction, place),
    )
}

// What bidders with a value or a higher one pay more by weight where they pay it, and not the next value.
fn change(auction: &Auction, kind: u32) -> i128
    requires { kind < value_count auction.now }
    ensures value { result ≡ number_at auction.now.values kind *ℤ weight_from auction.now kind -ℤ number_at auction.now.values (kind + 1) *ℤ weight_from auction.now (kind + 1) }
    ensures size { IsWithin (10 ^ 12) result }
{
    let _shaped = auction.kinds();
    asked(auction, kind) - asked(auction, kind + 1)
}

// The virtual value of a kind, times its weight.
fn virtual_value(auction: &Auction, kind: u32) -> i128
    requires { kind < value_count auction.now }
    ensures value { result ≡ virtual_value auction.now kind }
    ensures size { IsWithin (2 ^ 50) result }
{
    let item = product(i128::from(auction.weight(kind)), surplus(auction, kind));
    add_product(item, i128::from(auction.revenue()), change(auction, kind))
}

/// The virtual values below a place together, each times its weight.
pub(crate) fn virtual_below(auction: &Auction, place: u32) -> i128
    requires { place ≤ value_count auction.now }
    ensures value { result ≡ virtual_to auction.now place }
    ensures size { IsWithin (2 ^ 54) result }
{
    let _shaped = auction.kinds();
    let mut sum = 0;
    for kind in 0..place {
        sum += virtual_value(auction, kind);
    }
    sum
}
