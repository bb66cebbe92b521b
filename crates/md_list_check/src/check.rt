//! The verdict on a list.
ghost use Rattle.std.specs.Prelude.{◌≡◌, ◌↔◌, length, IfOk, MatchOption, None};
ghost use Rattle.md_list.specs.Best.{IsBest};
ghost use Rattle.md_list.specs.Lists.{ranks_of};
ghost use Rattle.md_list.specs.Mechanisms.{list_mechanism};
ghost use Rattle.md_list.specs.Ranks.{IsList};
ghost use Rattle.md_list.specs.Valid.{IsValid};
ghost use Rattle.md_list_check.specs.Levels.{AreLevels};
ghost use Rattle.md_list_check.specs.Verdicts.{IsListVerdict, IsListFault, IsWellFormed, AreRight};
ghost use Rattle.md_list_check.specs.declared.verdict.ListVerdict.TheVariants.{Valid, Undecided};

use crate::left_out::unlisted_fault;
use crate::order::order_fault;
use crate::pools::inside_fault;
use crate::told::averages_verdict;
use crate::verdict::ListVerdict;
use md_list::{Averages, ListAnswer, Ranked};
use md_num::{Frac, NoMemory};
use md_setting::GroupedAuction;
use std::alloc::Global;

/// Whether a list is best, as it claims, and what is told of it right. The averages are those of its rule, where they may
/// be told. Nothing but want of memory is an error.
pub fn check_list(
    alloc: Global,
    auction: &GroupedAuction,
    answer: &ListAnswer,
    averages: Option<Averages>,
) -> Result<ListVerdict, NoMemory>
    requires form { IsWellFormed auction.now answer.now }
    requires averages { AreRight auction.now (ranks_of answer.now.ranks.items) averages }
    ensures verdict { IfOk result (IsListVerdict auction.now answer.now) }
    ensures best { IfOk result (λ verdict. verdict ≡ Valid → IsBest auction.now (list_mechanism auction.now (ranks_of answer.now.ranks.items))) }
    ensures undecided { IfOk result (λ verdict. (verdict ≡ Undecided) ↔ (answer.now.levels ≡ None)) }
{
    let Some(levels) = &answer.levels else {
        return Ok(ListVerdict::Undecided);
    };
    if let Some(fault) = list_fault(alloc, auction, &answer.ranks, levels)? {
        return Ok(fault);
    }
    Ok(averages_verdict(&answer.averages, &averages))
}

// The first condition on the list that fails, whatever is told of it.
fn list_fault(
    alloc: Global,
    auction: &GroupedAuction,
    ranks: &[Ranked],
    levels: &[Frac],
) -> Result<Option<ListVerdict>, NoMemory>
    requires form { IsList auction.now (ranks_of ranks.now) }
    requires one_each { length levels.now ≡ length ranks.now }
    requires levels { AreLevels levels.now }
    ensures fault { IfOk result (λ fault. MatchOption fault (IsValid auction.now (ranks_of ranks.now) levels.now) (IsListFault auction.now (ranks_of ranks.now) levels.now)) }
    ensures best { IfOk result (λ fault. fault ≡ None → IsBest auction.now (list_mechanism auction.now (ranks_of ranks.now))) }
{
    if let Some(fault) = inside_fault(alloc, auction, ranks, levels)? {
        return Ok(Some(fault));
    }
    if let Some(fault) = unlisted_fault(alloc, auction, ranks)? {
        return Ok(Some(fault));
    }
    if let Some(place) = order_fault(alloc, auction, ranks, levels)? {
        return Ok(Some(ListVerdict::Order { place }));
    }
    Ok(None)
}
