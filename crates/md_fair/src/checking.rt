//! The verdict on an answer about the fairest mechanism.
ghost use Rattle.std.specs.Prelude.{◌≡◌, ◌↔◌, IfOk};
ghost use Rattle.md_question_check.specs.declared.verdict.Verdict.{Verdict};
ghost use Rattle.md_question_check.specs.declared.verdict.Verdict.TheVariants.{Valid, Undecided};
ghost use Rattle.md_question.specs.Shown.{IsFindingTo, IsSo};
ghost use Rattle.md_question_check.specs.Verdicts.{IsVerdictOn};
ghost use Rattle.md_fair.specs.FairQuestion.{fair_question};
ghost use Rattle.md_fair.specs.FairRows.{IsFairAnswer};
ghost use Rattle.md_fair.specs.FairVerdicts.{ClaimHolds, ClaimsNothing, IsFairVerdict};

use crate::answer::FairAnswer;
use crate::question::Fairest;
use md_num::NoMemory;
use md_question::Finding;
use md_question_check::{Verdict, check_infeasible, check_optimal, check_unbounded};
use md_setting::Setting;
use std::alloc::Global;

/// The verdict on an answer about the fairest mechanism of a setting: valid where all its conditions hold, undecided where it
/// claims nothing, and else rejected with the first condition that fails. Nothing but want of memory is an error.
pub fn check_fair(
    alloc: Global,
    setting: &Setting,
    answer: &FairAnswer,
) -> Result<Verdict, NoMemory>
    requires { IsFairAnswer setting.now answer.now }
    ensures verdict { IfOk result (IsFairVerdict setting.now answer.now) }
    ensures undecided { IfOk result (λ verdict. (verdict ≡ Undecided) ↔ ClaimsNothing answer.now) }

    // No other verdict is right, and what a valid answer claims is so.
    ensures only { IfOk result (λ verdict. (other : Verdict) → IsFairVerdict setting.now answer.now other → other ≡ verdict) }
    ensures claim { IfOk result (λ verdict. verdict ≡ Valid → ClaimHolds setting.now answer.now) }
{
    match answer {
        FairAnswer::Found(finding) => check_finding(alloc, setting, finding),
        FairAnswer::TooWide { .. } => Ok(Verdict::Undecided),
    }
}

// The verdict on what was found.
fn check_finding(alloc: Global, setting: &Setting, finding: &Finding) -> Result<Verdict, NoMemory>
    requires { IsFindingTo (fair_question setting.now) finding.now }
    ensures verdict { IfOk result (IsVerdictOn (fair_question setting.now) finding.now) }
    ensures only { IfOk result (λ verdict. (other : Verdict) → IsVerdictOn (fair_question setting.now) finding.now other → other ≡ verdict) }
    ensures claim { IfOk result (λ verdict. verdict ≡ Valid → IsSo (fair_question setting.now) finding.now) }
{
    let fairest = Fairest { setting };
    match finding {
        Finding::Optimal {
            value,
            mechanism,
            bound,
        } => check_optimal(alloc, &fairest, value, mechanism, bound),
        Finding::Infeasible { face } => check_infeasible(alloc, &fairest, face),
        Finding::Unbounded { mechanism, ray } => check_unbounded(alloc, &fairest, mechanism, ray),
    }
}
