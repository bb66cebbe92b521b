//! What a question finds.
ghost use Rattle.std.specs.Prelude.{◌≡◌, ◌↔◌, List, IfErr, IfOk, MatchResult};
ghost use Rattle.md_lp.specs.Program.{Program};
ghost use Rattle.md_lp.specs.declared.pivot.Pivot.{Pivot};
ghost use Rattle.md_lp.specs.declared.wide.Wide.{Wide};
ghost use Rattle.md_mech.specs.Accepted.{IsAccepted};
ghost use Rattle.md_parts.specs.Fitting.{IsFraction};
ghost use Rattle.md_simplex.specs.declared.order.Order.{Order};
ghost use Rattle.md_simplex.specs.declared.simplex_error.SimplexError.{SimplexError};
ghost use Rattle.md_simplex.specs.declared.step.Step.{Step};
ghost use Rattle.md_simplex.specs.Runs.{IsFirstWideOf, IsLeft, IsTaken, MeetsWideBasis, TellsOf};
ghost use Rattle.md_question.specs.Findings.{ClaimsInfeasible, WhereOptimal, WhereUnbounded};
ghost use Rattle.md_question.specs.Question.{AdmitsNone, IsProgramFor, IsQuestion};
ghost use Rattle.md_question.specs.Shown.{IsFindingTo, IsShown, IsSo};
ghost use Rattle.md_question.specs.declared.finding.Finding.{Finding};
ghost use Rattle.md_question_solve.specs.Found.{ClaimsEnd, HasValueIn, IsFound, IsFoundBy, IsLeftFor, IsOfPoint, reading_in};
ghost use Rattle.md_question_solve.specs.Readings.{HasFractions, IsOfBestPoint, WhereBest};

use crate::read::read_program;
use crate::reading::Reading;
use md_lp::Lp;
use md_num::Width;
use md_question::{Asks, Finding};
use md_simplex::SimplexError;
use std::alloc::Global;

/// Finds what a question asks for: a path of its program is followed to its end, and what is read off there is told. That is a
/// best mechanism, with multipliers that show that none is better; or multipliers that show that no mechanism is admitted; or a
/// mechanism with payments that may be added to it again and again, with a gain each time.
///
/// # Errors
/// Where a basis of each of the two paths of the program is too wide, the pivots to the first such one and its first such
/// entry, for each; or want of memory.
pub fn solve_question<Q: Asks>(
    alloc: Global,
    question: &Q,
    width: Width,
) -> Result<Finding, SimplexError>
    ensures solved { IfOk result (IsFound (Q.asked question.now) width) }

    // A question and a width have one finding.
    ensures only { (other : Finding) → IsFound (Q.asked question.now) width other → IfOk result (λ finding. finding ≡ other) }

    // What is claimed is so, over mechanisms of any denominator, with numbers of any size.
    ensures so { IfOk result (IsSo (Q.asked question.now)) }
    ensures admitted { IfOk result (WhereUnbounded (λ mechanism ray. (Q.asked question.now).admits mechanism)) }
    ensures of_point { IfOk result (WhereOptimal (λ value mechanism bound. IsOfPoint (Q.asked question.now) mechanism)) }

    // Where a path is taken, the claim is that of its end.
    ensures taken { (p : Program) (order : Order) (pivots : List Pivot) (step : Step) → IsProgramFor (Q.asked question.now) p → IsTaken order p width pivots step → MatchResult result (ClaimsEnd step) (λ error. error ≡ SimplexError.Memory) }
    ensures none { IfOk result (λ finding. ClaimsInfeasible finding ↔ AdmitsNone (Q.asked question.now)) }

    // Where a basis of each path is wide nothing is found. The first one of each is told, and nothing else, and it is told
    // nowhere else.
    ensures wide { (p : Program) → IsProgramFor (Q.asked question.now) p → MeetsWideBasis Order.Forward p width → MeetsWideBasis Order.Backward p width → IfOk result (λ _. ⊥) }
    ensures left { IfErr result (IsLeftFor (Q.asked question.now) width) }
    ensures every_left { (p : Program) → IsProgramFor (Q.asked question.now) p → IfErr result (IsLeft p width) }
    ensures first_wide { (p : Program) (first second : Wide) → IsProgramFor (Q.asked question.now) p → IsFirstWideOf Order.Forward p width first → IsFirstWideOf Order.Backward p width second → IfErr result (TellsOf first second) }

    // In whatever terms the program is written, its paths give this finding, which it shows.
    ensures every_program { (p : Program) → IsProgramFor (Q.asked question.now) p → IfOk result (IsFoundBy (Q.asked question.now) p width) }
    ensures shown { (p : Program) → IsProgramFor (Q.asked question.now) p → IfOk result (IsShown (Q.asked question.now) p) }

    // The finding, or the first wide entry of each path, can be written.
    ensures writable { IfOk result (IsFindingTo (Q.asked question.now)) }
    ensures wide_writable { IfErr result HasFractions }
{
    let Ok(lp) = question.program(alloc) else {
        return Err(SimplexError::Memory);
    };
    found(alloc, question, &lp, width)
}

/// What is found by a program of the question.
pub(crate) fn found<Q: Asks>(
    alloc: Global,
    question: &Q,
    lp: &Lp,
    width: Width,
) -> Result<Finding, SimplexError>
    requires { IsProgramFor (Q.asked question.now) lp.now }
    ensures found { IfOk result (IsFoundBy (Q.asked question.now) lp.now width) }
    ensures of_point { IfOk result (WhereOptimal (λ value mechanism bound. IsOfBestPoint (Q.asked question.now).setting lp.now mechanism)) }
    ensures left { IfErr result (IsLeft lp.now width) }
    ensures writable { IfOk result (IsFindingTo (Q.asked question.now)) }
    ensures wide_writable { IfErr result HasFractions }
    ensures laws { IsQuestion (Q.asked question.now) }
{
    match read_program(alloc, question.setting(), lp, width) {
        Ok(reading) => Ok(with_value(question, reading)),
        Err(error) => Err(error),
    }
}

/// What was read, with the value of the mechanism.
pub(crate) fn with_value<Q: Asks>(question: &Q, reading: Reading) -> Finding
    requires { WhereBest (IsAccepted (Q.asked question.now).setting) reading }
    ensures read { reading_in result ≡ reading }
    ensures value { HasValueIn (Q.asked question.now) result }
    ensures fraction { WhereOptimal (λ value mechanism bound. IsFraction value.num value.den) result }
{
    match reading {
        Reading::Optimal { mechanism, bound } => Finding::Optimal {
            value: question.value(&mechanism),
            mechanism,
            bound,
        },
        Reading::Infeasible { face } => Finding::Infeasible { face },
        Reading::Unbounded { mechanism, ray } => Finding::Unbounded { mechanism, ray },
    }
}
