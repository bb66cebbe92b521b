//! The records that tell a threshold auction.
ghost use Rattle.std.specs.Prelude.{◌≡◌, ◌<◌, ◌-◌, ◌++◌, ◌∷◌, [], ◌&&◌, nat_lt, if◌then◌else◌, IfOk, OnOk};
ghost use Rattle.md_setting.specs.Auction.{value_count};
ghost use Rattle.md_iron_values.specs.Cuts.{begins};
ghost use Rattle.md_iron_pools.specs.Pooling.{IsPooling, pools_of};
ghost use Rattle.md_cli_sell.specs.ThresholdTexts.{frac_row, head_rows, other_text, pool_number, pool_row, pool_rows, price_row, price_rows, reserve_row, text_of_threshold};

use md_iron_pools::{AuctionPools, begins};
use md_num::{Frac, NoMemory};
use md_parts::{push_end, push_numbers, push_value};
use md_records::{Row, write_records};
use md_setting::Auction;
use md_threshold::{Price, Threshold};
use std::alloc::Global;

/// The text of a threshold auction and its prices.
pub(crate) fn threshold_text(
    alloc: Global,
    auction: &Auction,
    units: u32,
    threshold: &Threshold,
    prices: &[Price],
) -> Result<Vec<u8>, NoMemory>
    requires { IsPooling auction.now threshold.now.pools }
    ensures { IfOk result (λ text. text.items ≡ text_of_threshold auction.now units threshold.now prices.now) }
{
    let mut rows = Vec::new(alloc);
    push_head(alloc, &mut rows, auction, units, threshold)?;
    push_pools(alloc, &mut rows, auction, &threshold.pools)?;
    push_prices(alloc, &mut rows, auction, &threshold.pools, prices)?;
    push_end(alloc, &mut rows)?;
    write_records(alloc, &rows)
}

// Adds the records before the pools.
fn push_head(
    alloc: Global,
    rows: &mut Vec<Row>,
    auction: &Auction,
    units: u32,
    threshold: &Threshold,
) -> Result<(), NoMemory>
    requires { IsPooling auction.now threshold.now.pools }
    ensures { OnOk result (rows.new.items ≡ rows.old.items ++ head_rows auction.now units threshold.now) }
{
    push_numbers(alloc, rows, "threshold", &[1])?;
    push_numbers(alloc, rows, "units", &[i128::from(units)])?;
    push_value(alloc, rows, threshold.value)?;
    push_frac(alloc, rows, "revenue", threshold.revenue)?;
    push_frac(alloc, rows, "welfare", threshold.welfare)?;
    rows.push(reserve_record(alloc, auction, &threshold.pools)?)?;
    Ok(())
}

// Adds a fraction after a word.
fn push_frac(alloc: Global, rows: &mut Vec<Row>, word: &str, frac: Frac) -> Result<(), NoMemory>
    ensures { OnOk result (rows.new.items ≡ rows.old.items ++ frac_row word.now frac ∷ []) }
{
    push_numbers(alloc, rows, word, &[frac.num, frac.den])
}

// The record of the least value that can win.
fn reserve_record(alloc: Global, auction: &Auction, pools: &AuctionPools) -> Result<Row, NoMemory>
    ensures { IfOk result (λ row. row ≡ reserve_row auction.now (pools_of pools.now)) }
{
    let row = Row::new(alloc).with(b"reserve")?;
    if pools.reserve < auction.kinds() {
        return row.with_number(i128::from(auction.value(pools.reserve)));
    }
    row.with(b"none")
}

// Adds a record for each pool that can win.
fn push_pools(
    alloc: Global,
    rows: &mut Vec<Row>,
    auction: &Auction,
    pools: &AuctionPools,
) -> Result<(), NoMemory>
    requires { IsPooling auction.now pools.now }
    ensures { OnOk result (rows.new.items ≡ rows.old.items ++ pool_rows auction.now (pools_of pools.now)) }
{
    for kind in 0..auction.kinds() {
        push_if_pool(alloc, rows, auction, pools, kind)?;
    }
    Ok(())
}

// Adds the record of a pool, where one begins at a value.
fn push_if_pool(
    alloc: Global,
    rows: &mut Vec<Row>,
    auction: &Auction,
    pools: &AuctionPools,
    kind: u32,
) -> Result<(), NoMemory>
    requires pooling { IsPooling auction.now pools.now }
    requires kind { kind < value_count auction.now }
    ensures { OnOk result (rows.new.items ≡ rows.old.items ++ (if begins (pools_of pools.now) kind then pool_row auction.now (pools_of pools.now) kind ∷ [] else [])) }
{
    if begins(pools, kind) {
        let least = i128::from(auction.value(kind));
        let greatest = i128::from(auction.value(last_of(auction, pools, kind)));
        return push_numbers(alloc, rows, "pool", &[least, greatest]);
    }
    Ok(())
}

// The greatest value of the pool of a value.
fn last_of(auction: &Auction, pools: &AuctionPools, kind: u32) -> u32
    requires pooling { IsPooling auction.now pools.now }
    requires kind { kind < value_count auction.now }
    ensures value { result ≡ (pools_of pools.now).stop kind - 1 }
    ensures range { result < value_count auction.now }
{
    pools.by_kind[kind as usize].stop - 1
}

// Adds a record for each price.
fn push_prices(
    alloc: Global,
    rows: &mut Vec<Row>,
    auction: &Auction,
    pools: &AuctionPools,
    prices: &[Price],
) -> Result<(), NoMemory>
    requires { IsPooling auction.now pools.now }
    ensures { OnOk result (rows.new.items ≡ rows.old.items ++ price_rows auction.now (pools_of pools.now) prices.now) }
{
    for price in prices {
        rows.push(price_record(alloc, auction, pools, *price)?)?;
    }
    Ok(())
}

// The record of a price.
fn price_record(
    alloc: Global,
    auction: &Auction,
    pools: &AuctionPools,
    row: Price,
) -> Result<Row, NoMemory>
    requires { IsPooling auction.now pools.now }
    ensures { IfOk result (λ told. told ≡ price_row auction.now (pools_of pools.now) row) }
{
    let pool = i128::from(pool_number(auction, pools, row.pool));
    let named = Row::new(alloc).with(b"price")?.with_number(pool)?;
    with_other(named, auction, pools, row.other)?
        .with_number(i128::from(row.count))?
        .with_number(row.price.num)?
        .with_number(row.price.den)
}

// A record with the pool of the best one among the others.
fn with_other(
    row: Row,
    auction: &Auction,
    pools: &AuctionPools,
    other: Option<u32>,
) -> Result<Row, NoMemory>
    requires { IsPooling auction.now pools.now }
    ensures { IfOk result (λ more. more ≡ row ++ other_text auction.now (pools_of pools.now) other ∷ []) }
{
    match other {
        Some(other) => row.with_number(i128::from(pool_number(auction, pools, other))),
        None => row.with(b"none"),
    }
}

// The number of the pool that begins at a value.
fn pool_number(auction: &Auction, pools: &AuctionPools, first: u32) -> u32
    requires { IsPooling auction.now pools.now }
    ensures { result ≡ pool_number auction.now (pools_of pools.now) first }
{
    let mut number: u32 = 0;
    for kind in 0..auction.kinds() {
        if is_lower(auction, pools, kind, first) {
            number += 1;
        }
    }
    number
}

// Whether a pool that can win begins at a value below another one.
fn is_lower(auction: &Auction, pools: &AuctionPools, kind: u32, first: u32) -> bool
    requires pooling { IsPooling auction.now pools.now }
    requires kind { kind < value_count auction.now }
    ensures { result ≡ (nat_lt kind first && begins (pools_of pools.now) kind) }
{
    kind < first && begins(pools, kind)
}
