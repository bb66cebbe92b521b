//! What the winner of one unit pays.
ghost use Rattle.std.specs.Prelude.{◌≡◌, ◌*◌, ◌<◌, ◌≤◌, pos, length};
ghost use Rattle.md_math.specs.Sizes.{IsWithin};
ghost use Rattle.md_setting.specs.Auction.{value_count};
ghost use Rattle.md_setting.specs.AuctionShaped.{IsAuction};
ghost use Rattle.md_iron_values.specs.Odds.{pay_by, step_of};
ghost use Rattle.md_math.specs.Lists.{number_at};
ghost use Rattle.md_iron_pools.specs.Pooling.{IsPooling, pools_of};
ghost use Rattle.md_threshold.specs.Prices.{IsPriceAgainst, chance_against};

use crate::chances::draw_count;
use crate::counts::first_of;
use md_iron_pools::AuctionPools;
use md_num::{Frac, add_product};
use md_setting::Auction;

/// What a winner of one unit with a value pays, in least terms, where the best pool among the other bidders is that of another value,
/// and so many of them are in it. Where no other one buys, the other value is the first one that buys, and nobody is in its pool.
pub(crate) fn one_unit_price(
    auction: &Auction,
    pools: &AuctionPools,
    kind: u32,
    other: u32,
    count: u32,
) -> Frac
    requires pooling { IsPooling auction.now pools.now }
    requires kind { kind < value_count auction.now }
    requires other { (pools.now.reserve ≤ other) × (other < value_count auction.now) }
    requires not_above { (pools_of pools.now).first other ≤ (pools_of pools.now).first kind }
    requires buys { pools.now.reserve ≤ kind }
    requires count { count < auction.now.bidders }
    requires none { count ≡ 0 → other ≡ pools.now.reserve }
    ensures { IsPriceAgainst auction.now (pools_of pools.now) kind other count result }
{
    let _shaped = auction.kinds();
    let chance = chance_against(pools, other, count, kind);
    let paid = paid_against(auction, pools, other, count, kind);
    Frac::reduced(paid, i128::from(chance))
}

// At how many draws a bidder with a value wins.
fn chance_against(pools: &AuctionPools, other: u32, count: u32, kind: u32) -> u32
    requires kind { kind < length pools.now.by_kind.items }
    requires other { other < length pools.now.by_kind.items }
    requires count { count < 12 }
    ensures value { result ≡ chance_against (pools_of pools.now) other count kind }
    ensures size { result ≤ 27720 }
{
    if kind < pools.reserve {
        return 0;
    }
    let first = first_of(pools, kind);
    let best = first_of(pools, other);
    if first < best {
        return 0;
    }
    if best < first {
        return draw_count();
    }
    draw_count() / (count + 1)
}

// At how many draws more it wins with a value than with the one before it.
fn step_against(pools: &AuctionPools, other: u32, count: u32, kind: u32) -> i128
    requires kind { kind < length pools.now.by_kind.items }
    requires other { other < length pools.now.by_kind.items }
    requires count { count < 12 }
    ensures value { result ≡ step_of (λ v. pos (chance_against (pools_of pools.now) other count v)) kind }
    ensures size { IsWithin 27720 result }
{
    let chance = i128::from(chance_against(pools, other, count, kind));
    if kind == 0 {
        return chance;
    }
    chance - i128::from(chance_against(pools, other, count, kind - 1))
}

// What it pays over all draws.
fn paid_against(auction: &Auction, pools: &AuctionPools, other: u32, count: u32, kind: u32) -> i128
    requires pooling { IsPooling auction.now pools.now }
    requires kind { kind < value_count auction.now }
    requires other { other < value_count auction.now }
    requires count { count < 12 }
    ensures value { result ≡ pay_by (number_at auction.now.values) (λ v. pos (chance_against (pools_of pools.now) other count v)) kind }
    ensures size { IsWithin (12 * (1000000 * 27720)) result }
{
    let _shaped = auction.kinds();
    let mut sum = 0;
    for place in 0..kind + 1 {
        let step = step_against(pools, other, count, place);
        sum = add_product(sum, i128::from(auction.value(place)), step);
    }
    sum
}
