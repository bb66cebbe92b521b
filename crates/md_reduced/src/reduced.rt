//! The reduced program of an auction.
ghost use Rattle.std.specs.Prelude.{◌≡◌, ◌+◌, ◌<◌, ◌≤◌, ◌^◌, [], pos, length, IfOk, OnOk};
ghost use Rattle.md_math.specs.Sizes.{IsWithin};
ghost use Rattle.md_setting.specs.Auction.{value_count};
ghost use Rattle.md_setting.specs.AuctionShaped.{IsAuction};
ghost use Rattle.md_lp.specs.Program.{row_count};
ghost use Rattle.md_lp.specs.Point.{Meets};
ghost use Rattle.md_forms.specs.ProgramOf.{HasCostOf};
ghost use Rattle.md_reduced.specs.Conditions.{IsInside, conditions_of};
ghost use Rattle.md_lp.specs.Cuts.{AreCuts, HasSingles};
ghost use Rattle.md_reduced.specs.Mechanisms.{AdmitsPoints, HoldsAdmissible, IsBounded, MakesOptimal};
ghost use Rattle.md_reduced.specs.ProgramOf.{IsReducedProgram, HasEachRow, MeetsByConditions, CostsPoints, GrowsByRows, column_count};
ghost use Rattle.md_reduced.specs.Sides.{right_side, cost_of};

use crate::condition::{ReducedCondition, condition_at, row_count};
use crate::costs::cost;
use crate::rows::push_condition;
use md_border::right_side_for;
use md_forms::want_of;
use md_lp::{Lp, Sets};
use md_num::NoMemory;
use md_setting::Auction;
use std::alloc::Global;

/// The reduced program of an auction with some cuts. Its columns are the odds, the plus parts and the minus parts of the
/// payments, each by value. Its rows, all of them at most their right sides, are the conditions: on truth by value and then
/// by other value, on taking part by value, and the cuts in their order. Each row, and the cost, is divided by its greatest
/// common divisor. Nothing but want of memory is an error.
pub fn program(alloc: Global, auction: &Auction, cuts: &Sets) -> Result<Lp, NoMemory>
    requires { AreCuts (value_count auction.now) cuts.now }
    ensures program { IfOk result (IsReducedProgram auction.now 1 cuts.now) }
    ensures each_row { IfOk result (HasEachRow auction.now 1 cuts.now) }
    ensures count { IfOk result (λ lp. row_count lp ≡ length (conditions_of (value_count auction.now) cuts.now)) }

    // Points of any denominator, with numbers of any size.
    ensures meets { IfOk result (MeetsByConditions auction.now 1 cuts.now) }
    ensures costs { IfOk result (CostsPoints auction.now) }

    // What its points say of the mechanisms of the auction, and these of its points, whatever the cuts are.
    ensures admits { IfOk result (AdmitsPoints auction.now) }
    ensures averages { IfOk result (HoldsAdmissible auction.now) }
    ensures optimal { IfOk result (MakesOptimal auction.now) }

    // Some point meets it, and where each value alone has a cut no point grows without end.
    ensures zero { IfOk result (λ lp. Meets lp (pos 1) (λ _. pos 0)) }
    ensures bounded { IfOk result (λ lp. HasSingles (value_count auction.now) cuts.now → IsBounded lp) }
{
    let lp = program_for(alloc, auction, 1, cuts)?;
    Ok(lp)
}

/// The same where so many units are sold, of which each bidder wants one: but for the right sides of the cuts, its columns and
/// rows are those of one item. Nothing but want of memory is an error.
pub fn program_for(
    alloc: Global,
    auction: &Auction,
    units: u32,
    cuts: &Sets,
) -> Result<Lp, NoMemory>
    requires few_units { units ≤ 12 }
    requires cuts { AreCuts (value_count auction.now) cuts.now }
    ensures program { IfOk result (IsReducedProgram auction.now units cuts.now) }
    ensures each_row { IfOk result (HasEachRow auction.now units cuts.now) }
    ensures count { IfOk result (λ lp. row_count lp ≡ length (conditions_of (value_count auction.now) cuts.now)) }

    // Points of any denominator, with numbers of any size.
    ensures meets { IfOk result (MeetsByConditions auction.now units cuts.now) }
    ensures costs { IfOk result (CostsPoints auction.now) }

    // Some point meets it, and where each value alone has a cut no point grows without end.
    ensures zero { IfOk result (λ lp. Meets lp (pos 1) (λ _. pos 0)) }
    ensures bounded { IfOk result (λ lp. HasSingles (value_count auction.now) cuts.now → IsBounded lp) }
    ensures shaped { IfOk result (λ _. IsAuction auction.now) }
{
    let mut lp = without_rows(alloc, auction)?;
    push_rows(alloc, auction, units, cuts, &mut lp)?;
    Ok(lp)
}

// Appends a row for each condition.
fn push_rows(
    alloc: Global,
    auction: &Auction,
    units: u32,
    cuts: &Sets,
    lp: &mut Lp,
) -> Result<(), NoMemory>
    requires few_units { units ≤ 12 }
    requires cuts { AreCuts (value_count auction.now) cuts.now }
    requires columns { lp.old.columns ≡ column_count auction.now }
    requires room { row_count lp.old + length (conditions_of (value_count auction.now) cuts.now) ≤ 8192 }
    ensures { OnOk result (GrowsByRows auction.now units cuts.now (length (conditions_of (value_count auction.now) cuts.now)) lp.old lp.new) }
{
    for row in 0..row_count(auction, cuts) {
        let condition = condition_at(auction, cuts, row);
        let right = right_of(auction, units, condition);
        push_condition(alloc, auction, condition, right, lp)?;
    }
    Ok(())
}

// The right side of a condition: how often units can go to bidders with values in its set, and 0 where it is no cut.
fn right_of(auction: &Auction, units: u32, condition: ReducedCondition) -> i128
    requires few_units { units ≤ 12 }
    requires inside { IsInside (value_count auction.now) condition }
    ensures value { result ≡ right_side auction.now units condition }
    ensures size { IsWithin (2 ^ 44) result }
{
    match condition {
        ReducedCondition::Truth { kind: _, other: _ } | ReducedCondition::Rational { kind: _ } => 0,
        ReducedCondition::Cut { set } => right_side_for(auction, units, set),
    }
}

// The program with its columns and its cost.
fn without_rows(alloc: Global, auction: &Auction) -> Result<Lp, NoMemory>
    ensures columns { IfOk result (λ lp. lp.columns ≡ column_count auction.now) }
    ensures cost { IfOk result (HasCostOf (column_count auction.now) (cost_of auction.now)) }
    ensures no_row { IfOk result (λ lp. lp.rows ≡ []) }
    ensures shaped { IfOk result (λ _. IsAuction auction.now) }
{
    match Lp::new(alloc, 3 * auction.kinds(), cost(alloc, auction)?) {
        Ok(lp) => Ok(lp),
        Err(refusal) => Err(want_of(refusal)),
    }
}
