//! Whether the values of no record bring nothing.
ghost use Rattle.std.specs.Prelude.{◌≡◌, ◌<◌, true, false, length, IfOk, MatchOption, neg_ℤ};
ghost use Rattle.md_math.specs.FirstFailure.{HoldsBelow, IsFirstFailure};
ghost use Rattle.md_math.specs.LexOrder.{IsPairPositive, IsPairNonNegative};
ghost use Rattle.md_setting.specs.GroupedShaped.{IsGroupedAuction};
ghost use Rattle.md_list.specs.Ranks.{IsList};
ghost use Rattle.md_list.specs.Lists.{ranks_of};
ghost use Rattle.md_list.specs.Valid.{unlisted};
ghost use Rattle.md_list_check.specs.LeftOut.{BringsNothingTo};
ghost use Rattle.md_list_gains.specs.Places.{IsCurve, gain_to, benefit_to};
ghost use Rattle.md_list_check.specs.Verdicts.{IsLeftOut, IsGroupVerdict, IsUnlistedVerdict};

use crate::divisors::in_least_terms;
use crate::ranks::unlisted;
use crate::verdict::ListVerdict;
use md_list::Ranked;
use md_list_gains::{Sums, between, places};
use md_num::NoMemory;
use md_setting::GroupedAuction;
use std::alloc::Global;

/// The first group whose values of no record bring something, and the first of them from which on they do.
pub(crate) fn unlisted_fault(
    alloc: Global,
    auction: &GroupedAuction,
    ranks: &[Ranked],
) -> Result<Option<ListVerdict>, NoMemory>
    requires { IsList auction.now (ranks_of ranks.now) }
    ensures fault { IfOk result (λ fault. MatchOption fault (HoldsBelow (length auction.now.groups) (IsLeftOut auction.now (ranks_of ranks.now))) (IsUnlistedVerdict auction.now (ranks_of ranks.now))) }
    ensures shaped { IsGroupedAuction auction.now }
{
    for group in 0..auction.groups() {
        if let Some(fault) = group_fault(alloc, auction, ranks, group)? {
            return Ok(Some(fault));
        }
    }
    Ok(None)
}

// The first value of no record from which on those of a group bring something.
fn group_fault(
    alloc: Global,
    auction: &GroupedAuction,
    ranks: &[Ranked],
    group: u32,
) -> Result<Option<ListVerdict>, NoMemory>
    requires form { IsList auction.now (ranks_of ranks.now) }
    requires group { group < length auction.now.groups }
    ensures { IfOk result (λ fault. MatchOption fault (IsLeftOut auction.now (ranks_of ranks.now) group) (IsGroupVerdict auction.now (ranks_of ranks.now) group)) }
{
    let places = places(alloc, auction, group)?;
    let stop = unlisted(auction, ranks, group);
    let Some(value) = first_gain(&places, stop) else {
        return Ok(None);
    };
    let sums = between(&places, value, stop);
    Ok(Some(ListVerdict::Unlisted {
        group,
        value,
        gain: in_least_terms(auction, group, i128::from(sums.gain)),
        benefit: in_least_terms(auction, group, i128::from(sums.benefit)),
    }))
}

// The first value from which up to a place values bring something.
fn first_gain(places: &[Sums], stop: usize) -> Option<usize>
    requires curve { IsCurve places.now }
    requires inside { stop < length places.now }
    ensures { MatchOption result (HoldsBelow stop (BringsNothingTo (gain_to places.now) (benefit_to places.now) stop)) (IsFirstFailure stop (BringsNothingTo (gain_to places.now) (benefit_to places.now) stop)) }
{
    for value in 0..stop {
        if brings_some(&between(places, value, stop)) {
            return Some(value);
        }
    }
    None
}

// Whether values bring something: gains, or none and some benefit.
fn brings_some(sums: &Sums) -> bool
    ensures some { result ≡ true → IsPairPositive sums.now.gain sums.now.benefit }
    ensures none { result ≡ false → IsPairNonNegative (neg_ℤ sums.now.gain) (neg_ℤ sums.now.benefit) }
{
    sums.gain > 0 || (sums.gain == 0 && sums.benefit > 0)
}
