//! The best list of an auction is found.
ghost use Rattle.std.specs.Prelude.{◌≡◌, suc, ◌<◌, length, All, IfOk, OnOk};
ghost use Rattle.md_setting.specs.GroupedShaped.{IsGroupedAuction};
ghost use Rattle.md_list.specs.Best.{IsBest};
ghost use Rattle.md_list.specs.ByRule.{IsByRule};
ghost use Rattle.md_list.specs.Lists.{ranks_of};
ghost use Rattle.md_list.specs.Mechanisms.{list_mechanism, KeepsPromises};
ghost use Rattle.md_list.specs.Valid.{IsValid};
ghost use Rattle.md_list_find.specs.GroupSums.{AreListed};
ghost use Rattle.md_list_find.specs.Levels.{IsShortLevel};

use crate::chords::{pool_end, reserve};
use crate::order::{Pool, put};
use crate::virtual_values::{levels, ranks};
use md_list::BestList;
use md_list_gains::{between, places};
use md_num::NoMemory;
use md_setting::GroupedAuction;
use std::alloc::Global;

/// The best list of an auction: no mechanism brings the designer more, and none that brings as much has greater welfare. It has the
/// pools of each group from its reserve on, by what they bring, with their virtual values in least terms.
///
/// # Errors
/// Want of memory.
pub fn find_list(alloc: Global, auction: &GroupedAuction) -> Result<BestList, NoMemory>
    ensures by_rule { IfOk result (λ list. IsByRule auction.now (ranks_of list.ranks.items) list.levels.items) }
    ensures short { IfOk result (λ list. All IsShortLevel list.levels.items) }
    ensures valid { IfOk result (λ list. IsValid auction.now (ranks_of list.ranks.items) list.levels.items) }
    ensures promises { IfOk result (λ list. KeepsPromises auction.now (ranks_of list.ranks.items)) }
    ensures best { IfOk result (λ list. IsBest auction.now (list_mechanism auction.now (ranks_of list.ranks.items))) }
{
    let pools = all_pools(alloc, auction)?;
    Ok(BestList {
        ranks: ranks(alloc, &pools)?,
        levels: levels(alloc, &pools)?,
    })
}

// The pools of all groups in their order.
fn all_pools(alloc: Global, auction: &GroupedAuction) -> Result<Vec<Pool>, NoMemory>
    ensures listed { IfOk result (λ pools. AreListed auction.now (length auction.now.groups) pools.items) }
    ensures shaped { IsGroupedAuction auction.now }
{
    let mut pools = Vec::new(alloc);
    for group in 0..auction.groups() {
        put_group(alloc, auction, group, &mut pools)?;
    }
    Ok(pools)
}

// Puts the pools of a group among those of the groups before it.
fn put_group(
    alloc: Global,
    auction: &GroupedAuction,
    group: u32,
    pools: &mut Vec<Pool>,
) -> Result<(), NoMemory>
    requires group { group < length auction.now.groups }
    requires listed { AreListed auction.now group pools.old.items }
    ensures { OnOk result (AreListed auction.now (suc group) pools.new.items) }
{
    let _shaped = auction.groups();
    let places = places(alloc, auction, group)?;
    let mut first = reserve(&places);
    while first < places.len() - 1 {
        let stop = pool_end(&places, first);
        let pool = Pool {
            group,
            first,
            stop,
            sums: between(&places, first, stop),
        };
        put(pools, pool)?;
        first = stop;
    }
    Ok(())
}
