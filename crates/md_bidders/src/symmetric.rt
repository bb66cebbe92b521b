//! Symmetric auctions as auctions with a single group of bidders.
ghost use Rattle.std.specs.Prelude.{◌≡◌, ◌≤◌, All, IfOk, pos, map, replicate};
ghost use Rattle.md_setting.specs.Grouped.{group_as_written, grouped_as_written, written_group, written_grouped};
ghost use Rattle.md_bidders.specs.AsGroups.{as_groups, one_group};

use md_num::NoMemory;
use md_setting::{Auction, BuildRefusal, GroupedAuction, RawGroup, RawGroupedAuction};
use std::alloc::Global;

/// A symmetric auction of so many units, at most as many as an auction may have bidders, as one with a single group of bidders,
/// whose name is `bidder`, and a slot of the amount 1 for each unit. It is within the limits of such auctions.
///
/// # Errors
/// Want of memory.
pub fn as_groups(alloc: Global, auction: &Auction, units: u32) -> Result<GroupedAuction, NoMemory>
    requires { (1 ≤ units) × (units ≤ 12) }
    ensures { IfOk result (λ groups. groups ≡ as_groups auction.now units) }
{
    let _shaped = auction.kinds();
    let raw = raw_groups(alloc, auction, units)?;
    match GroupedAuction::new(alloc, raw) {
        Ok(groups) => Ok(groups),
        Err(refusal) => Err(out_of_memory(refusal)),
    }
}

// The one reason why such an auction is not made.
fn out_of_memory(refusal: BuildRefusal) -> NoMemory
    requires { refusal ≡ BuildRefusal.Memory }
{
    match refusal {
        BuildRefusal::Memory => NoMemory,
        _ => unreachable!(),
    }
}

// The same as it would be written.
fn raw_groups(alloc: Global, auction: &Auction, units: u32) -> Result<RawGroupedAuction, NoMemory>
    ensures { IfOk result (λ raw. written_grouped raw ≡ grouped_as_written (as_groups auction.now units)) }
{
    let mut groups = Vec::new(alloc);
    groups.push(raw_group(alloc, auction)?)?;
    Ok(RawGroupedAuction {
        slots: equal_slots(alloc, units)?,
        revenue: auction.revenue(),
        welfare: auction.welfare(),
        keep: auction.keep(),
        groups,
    })
}

// The group of all bidders as it would be written.
fn raw_group(alloc: Global, auction: &Auction) -> Result<RawGroup, NoMemory>
    ensures { IfOk result (λ raw. written_group raw ≡ group_as_written (one_group auction.now)) }
{
    Ok(RawGroup {
        name: String::from_str(alloc, "bidder")?,
        count: i64::from(auction.bidders()),
        values: Vec::from_slice(alloc, auction.values())?,
        weights: signed_weights(alloc, auction.weights())?,
        worth: 0,
    })
}

fn signed_weights(alloc: Global, weights: &[u64]) -> Result<Vec<i64>, NoMemory>
    requires { All (λ weight. weight ≤ 1000000) weights.now }
    ensures { IfOk result (λ signed. signed.items ≡ map pos weights.now) }
{
    let mut signed = Vec::new(alloc);
    for weight in weights {
        signed.push(*weight as i64)?;
    }
    Ok(signed)
}

// A slot of the amount 1 for each unit.
fn equal_slots(alloc: Global, units: u32) -> Result<Vec<i64>, NoMemory>
    ensures { IfOk result (λ slots. slots.items ≡ map pos (replicate units 1)) }
{
    let mut slots = Vec::new(alloc);
    for _ in 0..units {
        slots.push(1)?;
    }
    Ok(slots)
}
