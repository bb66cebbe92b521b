//! The prices of one unit, case by case.
ghost use Rattle.std.specs.Prelude.{◌≡◌, ◌+◌, ◌<◌, ◌≤◌, true, [], ◌∷◌, ◌++◌, All, map, IfOk, if◌then◌else◌};
ghost use Rattle.md_setting.specs.Auction.{value_count};
ghost use Rattle.md_iron_values.specs.Cuts.{begins};
ghost use Rattle.md_iron_pools.specs.Pooling.{IsPooling, pools_of};
ghost use Rattle.md_threshold.specs.PriceLists.{AddsPrices, IsCase, IsCasePrice, all_cases, best_in, case_for, case_of, other_cases, pool_cases};

use crate::Price;
use crate::prices::one_unit_price;
use md_iron_pools::{AuctionPools, begins};
use md_num::NoMemory;
use md_setting::Auction;
use std::alloc::Global;

/// What the winner of one unit pays in each case: by its pool, from the lowest on, and by the best pool among the others, first where
/// none of them buys; then by how many of them are in that pool.
pub fn one_unit_prices(
    alloc: Global,
    auction: &Auction,
    pools: &AuctionPools,
) -> Result<Vec<Price>, NoMemory>
    requires { IsPooling auction.now pools.now }
    ensures cases { IfOk result (λ rows. map case_of rows.items ≡ all_cases auction.now (pools_of pools.now)) }
    ensures prices { IfOk result (λ rows. All (IsCasePrice auction.now (pools_of pools.now)) rows.items) }
{
    let mut rows = Vec::new(alloc);
    for pool in 0..auction.kinds() {
        push_if_pool(&mut rows, auction, pools, pool)?;
    }
    Ok(rows)
}

// Appends the cases of a pool, where one begins at a value.
fn push_if_pool(
    rows: &mut Vec<Price>,
    auction: &Auction,
    pools: &AuctionPools,
    pool: u32,
) -> Result<(), NoMemory>
    requires pooling { IsPooling auction.now pools.now }
    requires pool { pool < value_count auction.now }
    ensures { IfOk result (λ _. AddsPrices auction.now (pools_of pools.now) (if begins (pools_of pools.now) pool then pool_cases auction.now (pools_of pools.now) pool else []) rows.old.items rows.new.items) }
{
    if begins(pools, pool) {
        return push_pool(rows, auction, pools, pool);
    }
    Ok(())
}

// Appends the cases of a pool.
fn push_pool(
    rows: &mut Vec<Price>,
    auction: &Auction,
    pools: &AuctionPools,
    pool: u32,
) -> Result<(), NoMemory>
    requires pooling { IsPooling auction.now pools.now }
    requires pool { pool < value_count auction.now }
    requires begins { begins (pools_of pools.now) pool ≡ true }
    ensures { IfOk result (λ _. AddsPrices auction.now (pools_of pools.now) (pool_cases auction.now (pools_of pools.now) pool) rows.old.items rows.new.items) }
{
    let _shaped = auction.kinds();
    push_case(rows, auction, pools, pool, None, 0)?;
    for other in 0..pool + 1 {
        push_if_other(rows, auction, pools, pool, other)?;
    }
    Ok(())
}

// Appends the cases of a pool with another one, where one begins at a value.
fn push_if_other(
    rows: &mut Vec<Price>,
    auction: &Auction,
    pools: &AuctionPools,
    pool: u32,
    other: u32,
) -> Result<(), NoMemory>
    requires pooling { IsPooling auction.now pools.now }
    requires pool { pool < value_count auction.now }
    requires other { other ≤ pool }
    requires begins { begins (pools_of pools.now) pool ≡ true }
    ensures { IfOk result (λ _. AddsPrices auction.now (pools_of pools.now) (if begins (pools_of pools.now) other then other_cases auction.now pool other else []) rows.old.items rows.new.items) }
{
    if begins(pools, other) {
        return push_other(rows, auction, pools, pool, other);
    }
    Ok(())
}

// Appends the cases of a pool with another one.
fn push_other(
    rows: &mut Vec<Price>,
    auction: &Auction,
    pools: &AuctionPools,
    pool: u32,
    other: u32,
) -> Result<(), NoMemory>
    requires pooling { IsPooling auction.now pools.now }
    requires pool { pool < value_count auction.now }
    requires other { other ≤ pool }
    requires begins { begins (pools_of pools.now) pool ≡ true }
    requires begins_too { begins (pools_of pools.now) other ≡ true }
    ensures { IfOk result (λ _. AddsPrices auction.now (pools_of pools.now) (other_cases auction.now pool other) rows.old.items rows.new.items) }
{
    for count in 0..auction.bidders() - 1 {
        push_case(rows, auction, pools, pool, Some(other), count + 1)?;
    }
    Ok(())
}

// Appends a case.
fn push_case(
    rows: &mut Vec<Price>,
    auction: &Auction,
    pools: &AuctionPools,
    pool: u32,
    other: Option<u32>,
    count: u32,
) -> Result<(), NoMemory>
    requires pooling { IsPooling auction.now pools.now }
    requires is_case { IsCase auction.now (pools_of pools.now) pool other count }
    ensures { IfOk result (λ _. AddsPrices auction.now (pools_of pools.now) (case_for pool other count ∷ []) rows.old.items rows.new.items) }
{
    let best = best_of(pools, other);
    let row = Price {
        pool,
        other,
        count,
        price: one_unit_price(auction, pools, pool, best, count),
    };
    push_row(rows, row)?;
    Ok(())
}

// The value whose pool is the best one among the others.
fn best_of(pools: &AuctionPools, other: Option<u32>) -> u32
    ensures { result ≡ best_in (pools_of pools.now) other }
{
    match other {
        Some(other) => other,
        None => pools.reserve,
    }
}

// Appends a row.
fn push_row(rows: &mut Vec<Price>, row: Price) -> Result<(), NoMemory>
    ensures { IfOk result (λ _. rows.new.items ≡ rows.old.items ++ row ∷ []) }
{
    rows.push(row)?;
    Ok(())
}
