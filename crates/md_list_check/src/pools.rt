//! Whether each record is a pool whose level is the one it claims.
ghost use Rattle.std.specs.Prelude.{◌≡◌, ◌<◌, length, IfOk, MatchOption};
ghost use Rattle.md_math.specs.FirstFailure.{HoldsBelow};
ghost use Rattle.md_list.specs.Ranks.{IsList};
ghost use Rattle.md_list.specs.Lists.{rank_of, ranks_of};
ghost use Rattle.md_list.specs.Valid.{IsPool};
ghost use Rattle.md_list_check.specs.Levels.{AreLevels, IsLevel};
ghost use Rattle.md_list_check.specs.ListSums.{IsRecord};
ghost use Rattle.md_list_check.specs.Verdicts.{IsPoolAt, IsInsideVerdict, IsPoolVerdict};

use crate::divisors::in_least_terms;
use crate::levels::first_unkept;
use crate::ranks::rank_at;
use crate::verdict::ListVerdict;
use md_list::Ranked;
use md_list_gains::places;
use md_num::{Frac, NoMemory};
use md_setting::GroupedAuction;
use std::alloc::Global;

/// The first record that is no pool with its level, and the first value at which it is not.
pub(crate) fn inside_fault(
    alloc: Global,
    auction: &GroupedAuction,
    ranks: &[Ranked],
    levels: &[Frac],
) -> Result<Option<ListVerdict>, NoMemory>
    requires form { IsList auction.now (ranks_of ranks.now) }
    requires one_each { length levels.now ≡ length ranks.now }
    requires levels { AreLevels levels.now }
    ensures { IfOk result (λ fault. MatchOption fault (HoldsBelow (length ranks.now) (IsPoolAt auction.now (ranks_of ranks.now) levels.now)) (IsInsideVerdict auction.now (ranks_of ranks.now) levels.now)) }
{
    for place in 0..ranks.len() {
        if let Some(fault) = pool_fault(alloc, auction, rank_at(ranks, place), &levels[place])? {
            return Ok(Some(fault));
        }
    }
    Ok(None)
}

// The first value at which a record does not keep a level.
fn pool_fault(
    alloc: Global,
    auction: &GroupedAuction,
    rank: Ranked,
    level: &Frac,
) -> Result<Option<ListVerdict>, NoMemory>
    requires rank { IsRecord auction.now (rank_of rank) }
    requires level { IsLevel level.now }
    ensures { IfOk result (λ fault. MatchOption fault (IsPool auction.now (rank_of rank) level.now) (IsPoolVerdict auction.now (rank_of rank) level.now)) }
{
    let places = places(alloc, auction, rank.group)?;
    let Some(sides) = first_unkept(&places, rank.first, rank.stop, level) else {
        return Ok(None);
    };
    Ok(Some(ListVerdict::Inside {
        group: rank.group,
        value: sides.value,
        left: in_least_terms(auction, rank.group, sides.left),
        right: in_least_terms(auction, rank.group, sides.right),
    }))
}
