//! The interim odds and payments of pools.
ghost use Rattle.std.specs.Prelude.{◌≡◌, ◌*◌, ◌^◌, ◌<◌, ◌≤◌, pos, ◌-ℤ◌, ◌<ℤ◌, IfOk};
ghost use Rattle.md_math.specs.Lists.{number_at, list_to};
ghost use Rattle.md_math.specs.Sizes.{IsWithin};
ghost use Rattle.md_setting.specs.Auction.{value_count};
ghost use Rattle.md_setting.specs.AuctionShaped.{IsAuction};
ghost use Rattle.md_border.specs.Odds.{IsInterim};
ghost use Rattle.md_iron_values.specs.Cuts.{set_from};
ghost use Rattle.md_iron_values.specs.Odds.{pay_by, share_den, step_of};
ghost use Rattle.md_threshold_laws.specs.ClosedOdds.{IsClosedInterim, sold_from};
ghost use Rattle.md_iron_pools.specs.Odds.{AreOddsTo, AreSmallOdds, IsOddsOf};
ghost use Rattle.md_iron_pools.specs.Pooling.{IsPooling, pools_of};

use crate::cut_sets::values_from;
use crate::gaps::chord_of;
use crate::pools::AuctionPools;
use md_border::{Interim, right_side_for};
use md_num::{NoMemory, Nums, add_product, exact_quotient, product};
use md_setting::Auction;
use std::alloc::Global;

/// The odds and payments of pools where so many units are sold: bidders of higher pools win first, and each of a pool as often
/// where there are too few units for all; each value pays so much that it gains nothing by telling the next one below.
pub fn interim(
    alloc: Global,
    auction: &Auction,
    pools: &AuctionPools,
    units: u32,
) -> Result<Interim, NoMemory>
    requires pooling { IsPooling auction.now pools.now }
    requires units { units ≤ 12 }
    ensures closed { IfOk result (IsClosedInterim auction.now units (pools_of pools.now)) }
    ensures fits { IfOk result (IsInterim auction.now) }
{
    let _shaped = auction.kinds();
    let odds = odds(alloc, auction, pools, units)?;
    let pays = payments(alloc, auction, &odds)?;
    Ok(Interim {
        den: share_of_all(auction),
        odds,
        pays,
    })
}

/// The denominator of all odds and payments: in so many cases a bidder with a value meets others.
pub fn share_of_all(auction: &Auction) -> i128
    ensures value { result ≡ share_den auction.now }
    ensures positive { pos 0 <ℤ result }
    ensures size { IsWithin (4 * 10 ^ 12) result }
{
    let bidders = auction.bidders();
    let others = (auction.total() as u64).pow(bidders - 1);
    product(i128::from(bidders), i128::from(others))
}

// The odds of all values.
fn odds(
    alloc: Global,
    auction: &Auction,
    pools: &AuctionPools,
    units: u32,
) -> Result<Nums, NoMemory>
    requires pooling { IsPooling auction.now pools.now }
    requires units { units ≤ 12 }
    ensures odds { IfOk result (AreOddsTo auction.now units (pools_of pools.now) (value_count auction.now)) }
    ensures small { IfOk result (AreSmallOdds auction.now) }
{
    let mut odds = Nums::new(alloc);
    for kind in 0..auction.kinds() {
        odds.push(odds_of(auction, pools, units, kind))?;
    }
    Ok(odds)
}

// The odds of a value: how often units go to the bidders of its pool, for each of them and each unit of its weight.
fn odds_of(auction: &Auction, pools: &AuctionPools, units: u32, kind: u32) -> i128
    requires pooling { IsPooling auction.now pools.now }
    requires units { units ≤ 12 }
    requires kind { kind < value_count auction.now }
    ensures { IsOddsOf auction.now units (pools_of pools.now) kind result }
{
    let _shaped = auction.kinds();
    if kind < pools.reserve {
        return 0;
    }
    let sold = sold_to(auction, pools, units, kind);
    exact_quotient(sold, chord_of(auction, pools, kind).weight)
}

// How much more often units can go to bidders from the beginning of the pool of a value on than to those behind it.
fn sold_to(auction: &Auction, pools: &AuctionPools, units: u32, kind: u32) -> i128
    requires pooling { IsPooling auction.now pools.now }
    requires units { units ≤ 12 }
    requires kind { kind < value_count auction.now }
    ensures { result ≡ sold_from auction.now units ((pools_of pools.now).first kind) -ℤ sold_from auction.now units ((pools_of pools.now).stop kind) }
{
    let _shaped = auction.kinds();
    let pool = pools.by_kind[kind as usize];
    sold_from(auction, units, pool.first) - sold_from(auction, units, pool.stop)
}

// How often units can go to bidders with values from one on.
fn sold_from(auction: &Auction, units: u32, kind: u32) -> i128
    requires units { units ≤ 12 }
    requires kind { kind ≤ value_count auction.now }
    ensures value { result ≡ sold_from auction.now units kind }
    ensures size { IsWithin (12 * 10 ^ 12) result }
{
    right_side_for(auction, units, set_from(auction, kind))
}

// The set of the values from one on.
fn set_from(auction: &Auction, kind: u32) -> u32
    requires { kind ≤ value_count auction.now }
    ensures value { result ≡ set_from (value_count auction.now) kind }
    ensures inside { result < 2 ^ value_count auction.now }
{
    if kind == auction.kinds() {
        return 0;
    }
    values_from(auction, kind)
}

// What all values pay: each value up to their own, as often as the odds grow there.
fn payments(alloc: Global, auction: &Auction, odds: &Nums) -> Result<Nums, NoMemory>
    requires { AreSmallOdds auction.now odds.now }
    ensures { IfOk result (λ pays. pays ≡ list_to (value_count auction.now) (pay_by (number_at auction.now.values) (number_at odds.now))) }
{
    let mut pays = Nums::new(alloc);
    let mut paid = 0;
    for kind in 0..auction.kinds() {
        let value = i128::from(auction.value(kind));
        paid = add_product(paid, value, odds_step(auction, odds, kind));
        pays.push(paid)?;
    }
    Ok(pays)
}

// How much more often a value wins than the one before it.
fn odds_step(auction: &Auction, odds: &Nums, kind: u32) -> i128
    requires small { AreSmallOdds auction.now odds.now }
    requires kind { kind < value_count auction.now }
    ensures value { result ≡ step_of (number_at odds.now) kind }
    ensures size { IsWithin (4 * 10 ^ 12) result }
{
    let own = odds.get(kind as usize);
    if kind == 0 {
        return own;
    }
    let before = odds.get(kind as usize - 1);
    own - before
}
