//! Which slots bidders get, and their amounts.
ghost use Rattle.std.specs.Prelude.{◌≡◌, ◌<◌, ◌≤◌, pos, length, IfOk};
ghost use Rattle.md_space.specs.Profiles.{IsProfile};
ghost use Rattle.md_setting.specs.Meaning.{sizes_of};
ghost use Rattle.md_setting.specs.Grouped.{bidder_count};
ghost use Rattle.md_bidders.specs.Assignments.{amount_of};
ghost use Rattle.md_bidders.specs.Setting.{setting_of};
ghost use Rattle.md_list.specs.Lists.{ranks_of};
ghost use Rattle.md_list.specs.Rule.{slot_at, amount_with};
ghost use Rattle.md_list_award.specs.Bids.{AreBids, AreSlots, ahead, goes_first, slot_for};

use crate::bids::Bid;
use crate::places::place_of;
use md_list::Ranked;
use md_num::NoMemory;
use md_setting::GroupedAuction;
use std::alloc::Global;

// Whether a bidder goes before another one, whose value has a place.
fn goes_first(bid: Bid, number: usize, place: usize, bidder: usize) -> bool
    ensures { result ≡ goes_first bid number place bidder }
{
    bid.place < place || (bid.place == place && number < bidder)
}

// How many of the others go before a bidder, whose value has a place.
fn ahead(bids: &[Bid], bidder: usize, place: usize) -> usize
    ensures value { result ≡ ahead bids.now bidder place }
    ensures few { result ≤ length bids.now }
{
    let mut count = 0;
    for number in 0..bids.len() {
        if number != bidder && goes_first(bids[number], number, place, bidder) {
            count += 1;
        }
    }
    count
}

// The slot of a bidder, whose value has a place, with so many records and slots.
fn slot_for(ranks: usize, slots: usize, bids: &[Bid], bidder: usize, place: usize) -> usize
    requires { slots ≤ 1000 }
    ensures value { result ≡ slot_for ranks slots bids.now bidder place }
    ensures inside { result ≤ slots }
{
    if ranks <= place {
        return 0;
    }
    let before = ahead(bids, bidder, place);
    if before < slots { before + 1 } else { 0 }
}

/// By bidder its slot, counted from 1, and 0 where it gets none.
pub(crate) fn slots_of(
    alloc: Global,
    auction: &GroupedAuction,
    ranks: &[Ranked],
    profile: &[u32],
    bids: &[Bid],
) -> Result<Vec<usize>, NoMemory>
    requires profile { IsProfile (sizes_of (setting_of auction.now)) profile.now }
    requires bids { AreBids auction.now (ranks_of ranks.now) profile.now bids.now }
    ensures { IfOk result (λ slots. AreSlots auction.now (ranks_of ranks.now) profile.now slots.items) }
{
    let count = auction.slots().len();
    let mut slots = Vec::new(alloc);
    for bidder in 0..bids.len() {
        slots.push(slot_for(ranks.len(), count, bids, bidder, bids[bidder].place))?;
    }
    Ok(slots)
}

/// What a bidder would get with a value, where the others have those of the profile.
pub(crate) fn amount_with(
    auction: &GroupedAuction,
    ranks: &[Ranked],
    profile: &[u32],
    bids: &[Bid],
    bidder: usize,
    value: u32,
) -> i64
    requires profile { IsProfile (sizes_of (setting_of auction.now)) profile.now }
    requires bids { AreBids auction.now (ranks_of ranks.now) profile.now bids.now }
    requires bidder { bidder < bidder_count auction.now }
    ensures value { result ≡ pos (amount_with auction.now (ranks_of ranks.now) profile.now bidder value) }
    ensures small { amount_with auction.now (ranks_of ranks.now) profile.now bidder value ≤ 1000 }
{
    let place = place_of(ranks, bids[bidder].group, value as usize);
    amount_of(
        auction,
        slot_for(ranks.len(), auction.slots().len(), bids, bidder, place),
    )
}

/// The amount of a slot, counted from 1, and 0 for no slot.
pub(crate) fn amount_of(auction: &GroupedAuction, slot: usize) -> i64
    requires { slot ≤ length auction.now.slots }
    ensures value { result ≡ pos (amount_of auction.now.slots slot) }
    ensures small { amount_of auction.now.slots slot ≤ 1000 }
{
    if slot == 0 {
        return 0;
    }
    auction.slots()[slot - 1]
}
