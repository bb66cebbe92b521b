//! Winners by their slots.
ghost use Rattle.std.specs.Prelude.{◌≡◌, ◌≢◌, ◌<◌, ℕ, suc, length, slice_index, IfOk, MatchOption};
ghost use Rattle.md_space.specs.Profiles.{IsProfile};
ghost use Rattle.md_setting.specs.Meaning.{sizes_of};
ghost use Rattle.md_setting.specs.Grouped.{bidder_count};
ghost use Rattle.md_bidders.specs.Setting.{setting_of};
ghost use Rattle.md_list.specs.Awards.{AreWinners, IsWinner};
ghost use Rattle.md_list.specs.Lists.{ranks_of};
ghost use Rattle.md_list.specs.Mechanisms.{KeepsPromises};
ghost use Rattle.md_list.specs.Ranks.{IsList};
ghost use Rattle.md_list.specs.Rule.{slot_at};
ghost use Rattle.md_list_award.specs.Bids.{AreBids, AreSlots};

use crate::amounts::{amount_of, slots_of};
use crate::bids::{Bid, bids};
use crate::payments::payment;
use md_list::{Ranked, Won};
use md_num::NoMemory;
use md_setting::GroupedAuction;
use std::alloc::Global;

/// Who gets a slot where bidders have the values of a profile, and what each of them pays, by slots from the first. The profile has
/// for each bidder the number of one of the values of its group.
pub fn award(
    alloc: Global,
    auction: &GroupedAuction,
    ranks: &[Ranked],
    profile: &[u32],
) -> Result<Vec<Won>, NoMemory>
    requires list { IsList auction.now (ranks_of ranks.now) }
    requires profile { IsProfile (sizes_of (setting_of auction.now)) profile.now }
    ensures winners { IfOk result (λ won. AreWinners auction.now (ranks_of ranks.now) profile.now won.items) }

    // Truth is best whatever the others report, nobody has less than nothing, and each unit costs the least value with which it
    // would still be had.
    ensures promises { KeepsPromises auction.now (ranks_of ranks.now) }
{
    let _shaped = auction.groups();
    let bids = bids(alloc, auction, ranks, profile)?;
    let slots = slots_of(alloc, auction, ranks, profile, &bids)?;
    winners(alloc, auction, ranks, profile, &bids, &slots)
}

// The winners, by slots from the first.
fn winners(
    alloc: Global,
    auction: &GroupedAuction,
    ranks: &[Ranked],
    profile: &[u32],
    bids: &[Bid],
    slots: &[usize],
) -> Result<Vec<Won>, NoMemory>
    requires profile { IsProfile (sizes_of (setting_of auction.now)) profile.now }
    requires bids { AreBids auction.now (ranks_of ranks.now) profile.now bids.now }
    requires slots { AreSlots auction.now (ranks_of ranks.now) profile.now slots.now }
    ensures { IfOk result (λ won. AreWinners auction.now (ranks_of ranks.now) profile.now won.items) }
{
    let mut won = Vec::new(alloc);
    for place in 0..auction.slots().len() {
        let Some(bidder) = bidder_with(slots, place + 1) else {
            return Ok(won);
        };
        won.push(winner(auction, ranks, profile, bids, place, bidder))?;
    }
    Ok(won)
}

// What the bidder with the slot behind so many others gets and pays.
fn winner(
    auction: &GroupedAuction,
    ranks: &[Ranked],
    profile: &[u32],
    bids: &[Bid],
    place: usize,
    bidder: usize,
) -> Won
    requires profile { IsProfile (sizes_of (setting_of auction.now)) profile.now }
    requires bids { AreBids auction.now (ranks_of ranks.now) profile.now bids.now }
    requires bidder { bidder < bidder_count auction.now }
    requires place { place < length auction.now.slots }
    requires slot { slot_at auction.now (ranks_of ranks.now) profile.now bidder ≡ suc place }
    ensures { IsWinner auction.now (ranks_of ranks.now) profile.now place result }
{
    let _shaped = auction.groups();
    Won {
        bidder: bidder as u32,
        amount: amount_of(auction, place + 1),
        pays: payment(auction, ranks, profile, bids, bidder),
    }
}

// The bidder with a slot.
fn bidder_with(slots: &[usize], slot: usize) -> Option<usize>
    ensures { MatchOption result ((i : ℕ) → i < length slots.now → slice_index slots.now i ≢ slot) (λ bidder. (bidder < length slots.now) × (slice_index slots.now bidder ≡ slot)) }
{
    for bidder in 0..slots.len() {
        if slots[bidder] == slot {
            return Some(bidder);
        }
    }
    None
}
