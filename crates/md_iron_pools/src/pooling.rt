//! Pools are found.
ghost use Rattle.std.specs.Prelude.{◌≡◌, ◌-◌, ◌≤◌, ◌++◌, replicate, IfOk, OnOk};
ghost use Rattle.md_math.specs.Lists.{list_to};
ghost use Rattle.md_setting.specs.Auction.{value_count};
ghost use Rattle.md_iron_values.specs.Pools.{Pools};
ghost use Rattle.md_iron_pools.specs.ByRule.{AreSamePools, IsAuctionByRule};
ghost use Rattle.md_iron_pools.specs.Pooling.{IsPooling, lone_pool, pools_of};

use crate::chords::{lowest_place, lowest_stop};
use crate::pools::{AuctionPools, Pool};
use md_num::NoMemory;
use md_setting::Auction;
use std::alloc::Global;

/// The pools of an auction's values: those below the reserve never win, and of the others each pool has the least mean of
/// virtual values that a pool which begins there can have. Where values tie, no more of them win and no pool is longer than
/// must be, and so there is one choice.
pub fn pool(alloc: Global, auction: &Auction) -> Result<AuctionPools, NoMemory>
    ensures pooled { IfOk result (IsPooling auction.now) }
    ensures named { IfOk result (λ kept. IsAuctionByRule auction.now (pools_of kept)) }
    ensures only { IfOk result (λ kept. (others : Pools) → IsAuctionByRule auction.now others → AreSamePools (value_count auction.now) (pools_of kept) others) }
{
    let reserve = lowest_place(auction, auction.kinds());
    let mut by_kind = lone_pools(alloc, reserve)?;
    let mut first = reserve;
    while first < auction.kinds() {
        let stop = lowest_stop(auction, first);
        push_pool(&mut by_kind, Pool { first, stop })?;
        first = stop;
    }
    Ok(AuctionPools { reserve, by_kind })
}

// A pool for each value before one.
fn lone_pools(alloc: Global, end: u32) -> Result<Vec<Pool>, NoMemory>
    ensures { IfOk result (λ pools. pools.items ≡ list_to end lone_pool) }
{
    let mut pools = Vec::new(alloc);
    for kind in 0..end {
        pools.push(Pool {
            first: kind,
            stop: kind + 1,
        })?;
    }
    Ok(pools)
}

// Appends a pool for each of its values.
fn push_pool(pools: &mut Vec<Pool>, pool: Pool) -> Result<(), NoMemory>
    requires { pool.first ≤ pool.stop }
    ensures { OnOk result (pools.new.items ≡ pools.old.items ++ replicate (pool.stop - pool.first) pool) }
{
    for _kind in pool.first..pool.stop {
        pools.push(pool)?;
    }
    Ok(())
}
