//! The records of a list.
ghost use Rattle.std.specs.Prelude.{◌≡◌, ℕ, ◌<◌, length};
ghost use Rattle.md_list.specs.Ranks.{left_after};
ghost use Rattle.md_list.specs.Lists.{rank_of, ranks_of};
ghost use Rattle.md_list.specs.Valid.{rank_at, unlisted};

use md_list::Ranked;
use md_setting::GroupedAuction;

/// The record at a place.
pub(crate) fn rank_at(ranks: &[Ranked], place: usize) -> Ranked
    requires { place < length ranks.now }
    ensures { rank_of result ≡ rank_at (ranks_of ranks.now) place }
{
    ranks[place]
}

/// The least value of a group that stands in a record of the list, and how many values it has where none does.
pub(crate) fn unlisted(auction: &GroupedAuction, ranks: &[Ranked], group: u32) -> usize
    requires { group < length auction.now.groups }
    ensures { result ≡ unlisted auction.now (ranks_of ranks.now) group }
{
    let mut left = auction.values(group).len();
    for place in 0..ranks.len() {
        left = left_after(left, rank_at(ranks, place), group);
    }
    left
}

// How many values of a group stand in no record once this one is read.
fn left_after(left: usize, rank: Ranked, group: u32) -> usize
    ensures { (before : ℕ → ℕ) → before group ≡ left → result ≡ left_after before (rank_of rank) group }
{
    if rank.group == group {
        return rank.first;
    }
    left
}
