//! What bidders pay.
ghost use Rattle.std.specs.Prelude.{◌≡◌, ◌<◌, ◌*◌, ◌+ℤ◌, ◌-ℤ◌, ◌*ℤ◌, length};
ghost use Rattle.md_math.specs.Sizes.{IsWithin};
ghost use Rattle.md_space.specs.Profiles.{IsProfile};
ghost use Rattle.md_setting.specs.Meaning.{sizes_of};
ghost use Rattle.md_math.specs.Lists.{number_at};
ghost use Rattle.md_setting.specs.Grouped.{bidder_count, group_at};
ghost use Rattle.md_bidders.specs.Setting.{setting_of};
ghost use Rattle.md_list.specs.Lists.{ranks_of};
ghost use Rattle.md_list.specs.Rule.{payment};
ghost use Rattle.md_list_award.specs.Bids.{AreBids};

use crate::amounts::amount_with;
use crate::bids::Bid;
use md_list::Ranked;
use md_num::add_product;
use md_setting::GroupedAuction;

/// What a bidder pays: for each unit that it gets the least of its values with which it would still get it.
pub(crate) fn payment(
    auction: &GroupedAuction,
    ranks: &[Ranked],
    profile: &[u32],
    bids: &[Bid],
    bidder: usize,
) -> i128
    requires profile { IsProfile (sizes_of (setting_of auction.now)) profile.now }
    requires bids { AreBids auction.now (ranks_of ranks.now) profile.now bids.now }
    requires bidder { bidder < bidder_count auction.now }
    ensures { result ≡ payment auction.now (ranks_of ranks.now) bidder profile.now }
{
    let _shaped = auction.groups();
    let group = bids[bidder].group;
    let mut pays = 0;
    let mut below = 0;
    for value in 0..profile[bidder] + 1 {
        let amount = amount_with(auction, ranks, profile, bids, bidder, value);
        pays = with_step(pays, value_in(auction, group, value), amount, below);
        below = amount;
    }
    pays
}

// A value of a group.
fn value_in(auction: &GroupedAuction, group: u32, value: u32) -> i64
    requires group { group < length auction.now.groups }
    requires value { value < length (group_at auction.now group).values }
    ensures { result ≡ number_at (group_at auction.now group).values value }
{
    auction.values(group)[value as usize]
}

// What is paid where each unit of an amount that is more than another one costs a value.
fn with_step(pays: i128, value: i64, amount: i64, below: i64) -> i128
    requires pays { IsWithin (64 * (1000000 * 1000)) pays }
    requires value { IsWithin 1000000 value }
    requires amount { IsWithin 1000 amount }
    requires below { IsWithin 1000 below }
    ensures { result ≡ pays +ℤ value *ℤ (amount -ℤ below) }
{
    add_product(pays, i128::from(value), i128::from(amount - below))
}
