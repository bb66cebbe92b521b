//! What a setting's own question finds, as an answer.
ghost use Rattle.std.specs.Prelude.{◌≡◌, ◌↔◌, List, IfOk};
ghost use Rattle.md_lp.specs.Program.{Program};
ghost use Rattle.md_lp.specs.declared.pivot.Pivot.{Pivot};
ghost use Rattle.md_mech.specs.Admissible.{IsAdmissible};
ghost use Rattle.md_mech.specs.Optimal.{Grows, IsInfeasible, IsOptimal};
ghost use Rattle.md_mech.specs.Value.{IsValueOf};
ghost use Rattle.md_rows.specs.ProgramOf.{IsProgramOf};
ghost use Rattle.md_simplex.specs.declared.order.Order.{Order};
ghost use Rattle.md_simplex.specs.declared.step.Step.{Step};
ghost use Rattle.md_simplex.specs.Runs.{IsTaken, MeetsWideBasis};
ghost use Rattle.md_answer.specs.AnswerTo.{IsAnswerTo};
ghost use Rattle.md_answer.specs.declared.answer.Answer.{Answer};
ghost use Rattle.md_solve.specs.Answered.{ClaimsEnd, ClaimsInfeasible, ClaimsUnbounded, IsMechanismAlone, IsTooWide, WhereInfeasible, WhereOptimal, WhereUnbounded};
ghost use Rattle.md_solve.specs.Bounds.{HasNoBound};
ghost use Rattle.md_solve.specs.Certifies.{IsCertifiedAnswer};
ghost use Rattle.md_solve.specs.Solved.{IsSolved, IsSolvedBy, answer_of};

use md_answer::Answer;
use md_lp::Sets;
use md_num::{NoMemory, Width};
use md_question::Finding;
use md_question_solve::solve_question;
use md_setting::Setting;
use md_simplex::SimplexError;
use std::alloc::Global;

/// The answer to a general setting.
pub(crate) fn solve_general(
    alloc: Global,
    setting: &Setting,
    width: Width,
) -> Result<Answer, NoMemory>
    ensures solved { IfOk result (IsSolved setting.now width) }
    ensures only { (other : Answer) → IsSolved setting.now width other → IfOk result (λ answer. answer ≡ other) }
    ensures optimal { IfOk result (WhereOptimal (λ value mechanism bound. IsOptimal setting.now mechanism)) }
    ensures value { IfOk result (WhereOptimal (λ value mechanism bound. IsValueOf setting.now mechanism value)) }
    ensures infeasible { IfOk result (WhereInfeasible (λ face. IsInfeasible setting.now)) }
    ensures unbounded { IfOk result (WhereUnbounded (λ mechanism ray. Grows setting.now mechanism ray)) }
    ensures admissible { IfOk result (WhereUnbounded (λ mechanism ray. IsAdmissible setting.now mechanism)) }
    ensures claims { IfOk result (λ answer. ¬ IsMechanismAlone answer) }
    ensures taken { (p : Program) (order : Order) (pivots : List Pivot) (step : Step) → IsProgramOf setting.now p → IsTaken order p width pivots step → IfOk result (ClaimsEnd step) }
    ensures none { IfOk result (λ answer. ¬ IsTooWide answer → ClaimsInfeasible answer ↔ IsInfeasible setting.now) }
    ensures no_bound { IfOk result (λ answer. ¬ IsTooWide answer → ClaimsUnbounded answer ↔ HasNoBound setting.now) }
    ensures wide { (p : Program) → IsProgramOf setting.now p → MeetsWideBasis Order.Forward p width → MeetsWideBasis Order.Backward p width → IfOk result IsTooWide }
    ensures every_program { (p : Program) → IsProgramOf setting.now p → IfOk result (IsSolvedBy setting.now p width) }
    ensures certified { (p : Program) → IsProgramOf setting.now p → IfOk result (IsCertifiedAnswer setting.now p) }
    ensures writable { IfOk result (IsAnswerTo setting.now) }
{
    let _shaped = setting.space();
    match solve_question(alloc, setting, width) {
        Ok(finding) => Ok(answer_of(finding)),
        Err(SimplexError::TooWide { first, second }) => Ok(Answer::TooWide {
            cuts: Sets::new(alloc),
            first,
            second: Some(second),
        }),
        Err(SimplexError::Memory) => Err(NoMemory),
    }
}

/// The answer that says what was found.
pub fn answer_of(finding: Finding) -> Answer
    ensures { result ≡ answer_of finding }
{
    match finding {
        Finding::Optimal {
            value,
            mechanism,
            bound,
        } => Answer::Optimal {
            value,
            mechanism,
            bound,
        },
        Finding::Infeasible { face } => Answer::Infeasible { face },
        Finding::Unbounded { mechanism, ray } => Answer::Unbounded { mechanism, ray },
    }
}
