//! The fairest mechanism, found.
ghost use Rattle.std.specs.Prelude.{◌≡◌, ◌↔◌, List, IfErr, IfOk, MatchResult};
ghost use Rattle.md_math.specs.Sizes.{IsWithin};
ghost use Rattle.md_lp.specs.Program.{Program};
ghost use Rattle.md_lp.specs.declared.pivot.Pivot.{Pivot};
ghost use Rattle.md_lp.specs.declared.wide.Wide.{Wide};
ghost use Rattle.md_mech.specs.Accepted.{number_limit};
ghost use Rattle.md_mech.specs.Admissible.{IsAdmissible};
ghost use Rattle.md_mech.specs.declared.mechanism.Mechanism.{Mechanism};
ghost use Rattle.md_mech.specs.Optimal.{IsInfeasible};
ghost use Rattle.md_simplex.specs.declared.order.Order.{Order};
ghost use Rattle.md_simplex.specs.declared.simplex_error.SimplexError.{SimplexError};
ghost use Rattle.md_simplex.specs.declared.step.Step.{Step};
ghost use Rattle.md_simplex.specs.Runs.{IsFirstWideOf, IsLeft, IsTaken, MeetsWideBasis, TellsOf};
ghost use Rattle.md_question.specs.Certified.{IsCertifiedFinding};
ghost use Rattle.md_question.specs.Findings.{ClaimsInfeasible, ClaimsUnbounded, WhereInfeasible, WhereOptimal, WhereUnbounded};
ghost use Rattle.md_question.specs.Shown.{IsFindingTo, IsShown};
ghost use Rattle.md_question.specs.declared.finding.Finding.{Finding};
ghost use Rattle.md_question_solve.specs.Found.{ClaimsEnd, IsFound, IsFoundBy, IsLeftFor};
ghost use Rattle.md_question_solve.specs.Readings.{HasFractions};
ghost use Rattle.md_fair.specs.Bounds.{HasNoLeastBound};
ghost use Rattle.md_fair.specs.FairProgram.{IsFairProgram};
ghost use Rattle.md_fair.specs.FairQuestion.{fair_question};
ghost use Rattle.md_fair.specs.Fairest.{GrowsFair, IsOptimalFair};
ghost use Rattle.md_fair.specs.Least.{HasLeast, IsLeastValueOf, least_of};

use md_fair::Fairest;
use md_num::Width;
use md_question::Finding;
use md_question_solve::{find_question, solve_question};
use md_setting::Setting;
use md_simplex::SimplexError;
use std::alloc::Global;

/// Finds the fairest mechanism of a setting, whatever the designer's own objective: a path of its fair program is followed
/// to its end, and what is read off there is told. The answer is an admissible mechanism under which the agent that gets
/// least on average gets most, with multipliers that show that none has a greater least; or multipliers that show that no
/// mechanism is admissible; or a mechanism with payments that may be added to it again and again, with a gain of each agent
/// each time.
///
/// # Errors
/// Where a basis of each of the two paths of the fair program is too wide, the pivots to the first such one and its first
/// such entry, for each; or want of memory.
pub fn solve_fair(alloc: Global, setting: &Setting, width: Width) -> Result<Finding, SimplexError>
    ensures solved { IfOk result (IsFound (fair_question setting.now) width) }

    // A setting and a width have one answer.
    ensures only { (other : Finding) → IsFound (fair_question setting.now) width other → IfOk result (λ answer. answer ≡ other) }

    // What is claimed is so, over mechanisms of any denominator, with numbers of any size. Each mechanism has a least; that of a fairest
    // one, in units of one over its denominator and the weight of all profiles, has at most 62 bits.
    ensures optimal { IfOk result (WhereOptimal (λ value mechanism bound. IsOptimalFair setting.now mechanism)) }
    ensures value { IfOk result (WhereOptimal (λ value mechanism bound. IsLeastValueOf setting.now mechanism value)) }
    ensures narrow { IfOk result (WhereOptimal (λ value mechanism bound. IsWithin number_limit (least_of setting.now mechanism))) }
    ensures infeasible { IfOk result (WhereInfeasible (λ face. IsInfeasible setting.now)) }
    ensures unbounded { IfOk result (WhereUnbounded (GrowsFair setting.now)) }
    ensures admissible { IfOk result (WhereUnbounded (λ mechanism ray. IsAdmissible setting.now mechanism)) }
    ensures has_least { (mechanism : Mechanism) → HasLeast setting.now mechanism }

    // Where a path is taken, the claim is that of its end, and it is made wherever it is so.
    ensures taken { (p : Program) (order : Order) (pivots : List Pivot) (step : Step) → IsFairProgram setting.now p → IsTaken order p width pivots step → MatchResult result (ClaimsEnd step) (λ error. error ≡ SimplexError.Memory) }
    ensures none { IfOk result (λ answer. ClaimsInfeasible answer ↔ IsInfeasible setting.now) }
    ensures no_bound { IfOk result (λ answer. ClaimsUnbounded answer ↔ HasNoLeastBound setting.now) }

    // Where a basis of each path is wide there is no answer. The first one of each is told, and nothing else, and it is told
    // nowhere else.
    ensures wide { (p : Program) → IsFairProgram setting.now p → MeetsWideBasis Order.Forward p width → MeetsWideBasis Order.Backward p width → IfOk result (λ _. ⊥) }
    ensures left { IfErr result (IsLeftFor (fair_question setting.now) width) }
    ensures every_left { (p : Program) → IsFairProgram setting.now p → IfErr result (IsLeft p width) }
    ensures first_wide { (p : Program) (first second : Wide) → IsFairProgram setting.now p → IsFirstWideOf Order.Forward p width first → IsFirstWideOf Order.Backward p width second → IfErr result (TellsOf first second) }

    // In whatever terms the fair program is written, its paths give this answer, which is a certificate of its claim.
    ensures every_program { (p : Program) → IsFairProgram setting.now p → IfOk result (IsFoundBy (fair_question setting.now) p width) }
    ensures certified { (p : Program) → IsFairProgram setting.now p → IfOk result (IsShown (fair_question setting.now) p) }

    // The answer, or the first wide entry of each path, can be written.
    ensures writable { IfOk result (IsFindingTo (fair_question setting.now)) }
    ensures wide_writable { IfErr result HasFractions }
{
    let _shaped = setting.space();
    let fairest = Fairest { setting };
    solve_question(alloc, &fairest, width)
}

/// Finds the fairest mechanism of a setting off the two stated paths of its fair program, or else by one of these. Which of
/// several is found is not said.
///
/// # Errors
/// Where nothing is found off the paths and a basis of each of them is too wide at 62 bits, the pivots to the first such one and
/// its first such entry, for each; or want of memory.
pub fn find_fair(alloc: Global, setting: &Setting) -> Result<Finding, SimplexError>
    ensures certified { IfOk result (IsCertifiedFinding (fair_question setting.now)) }

    // The least of a fairest mechanism, in units of one over its denominator and the weight of all profiles, has at most 62 bits.
    ensures narrow { IfOk result (WhereOptimal (λ value mechanism bound. IsWithin number_limit (least_of setting.now mechanism))) }

    // That there is no bound is claimed wherever it is so.
    ensures no_bound { IfOk result (λ finding. ClaimsUnbounded finding ↔ HasNoLeastBound setting.now) }

    // Only where both paths are too wide nothing is found.
    ensures left { IfErr result (IsLeftFor (fair_question setting.now) 62) }
{
    let _shaped = setting.space();
    let fairest = Fairest { setting };
    find_question(alloc, &fairest, None)
}
