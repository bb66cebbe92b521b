//! The bids of a profile.
ghost use Rattle.std.specs.Prelude.{◌≡◌, ◌++◌, length, replicate, IfOk, OnOk};
ghost use Rattle.md_space.specs.Profiles.{IsProfile};
ghost use Rattle.md_setting.specs.Meaning.{sizes_of};
ghost use Rattle.md_setting.specs.Grouped.{members};
ghost use Rattle.md_bidders.specs.Setting.{setting_of};
ghost use Rattle.md_list.specs.Lists.{ranks_of};
ghost use Rattle.md_list.specs.Ranks.{place_of};
ghost use Rattle.md_list_award.specs.Bids.{AreBids};

use crate::places::place_of;
use md_list::Ranked;
use md_num::NoMemory;
use md_setting::GroupedAuction;
use std::alloc::Global;

/// The bid of a bidder.
#[derive(Clone, Copy)]
pub(crate) struct Bid {
    /// The group of the bidder.
    pub group: u32,
    /// The place of its value in a list.
    pub place: usize,
}

/// The bids of all bidders, in their order.
pub(crate) fn bids(
    alloc: Global,
    auction: &GroupedAuction,
    ranks: &[Ranked],
    profile: &[u32],
) -> Result<Vec<Bid>, NoMemory>
    requires profile { IsProfile (sizes_of (setting_of auction.now)) profile.now }
    ensures { IfOk result (λ bids. AreBids auction.now (ranks_of ranks.now) profile.now bids.items) }
{
    let members = members(alloc, auction)?;
    let mut bids = Vec::new(alloc);
    for bidder in 0..members.len() {
        bids.push(bid_with(ranks, members[bidder], profile[bidder]))?;
    }
    Ok(bids)
}

// The bid of a bidder of a group with a value.
fn bid_with(ranks: &[Ranked], group: u32, value: u32) -> Bid
    ensures group { result.group ≡ group }
    ensures place { result.place ≡ place_of (ranks_of ranks.now) group value }
{
    Bid {
        group,
        place: place_of(ranks, group, value as usize),
    }
}

// By bidder the number of its group.
fn members(alloc: Global, auction: &GroupedAuction) -> Result<Vec<u32>, NoMemory>
    ensures { IfOk result (λ groups. groups.items ≡ members auction.now) }
{
    let mut groups = Vec::new(alloc);
    for group in 0..auction.groups() {
        push_members(&mut groups, group, auction.count(group))?;
    }
    Ok(groups)
}

// Puts the bidders of a group behind those before it.
fn push_members(groups: &mut Vec<u32>, group: u32, count: u32) -> Result<(), NoMemory>
    ensures { OnOk result (groups.new.items ≡ groups.old.items ++ replicate count group) }
{
    for _ in 0..count {
        groups.push(group)?;
    }
    Ok(())
}
