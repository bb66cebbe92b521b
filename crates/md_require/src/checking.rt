//! The verdict on an answer about the best mechanism that meets conditions of the designer.
ghost use Rattle.std.specs.Prelude.{◌≡◌, ◌≢◌, IfOk};
ghost use Rattle.md_question.specs.Shown.{IsFindingTo};
ghost use Rattle.md_question_check.specs.declared.verdict.Verdict.{Verdict};
ghost use Rattle.md_question_check.specs.declared.verdict.Verdict.TheVariants.{Valid, Undecided};
ghost use Rattle.md_question_check.specs.Verdicts.{IsVerdictOn};
ghost use Rattle.md_require.specs.Limits.{AreConditionsFor};
ghost use Rattle.md_require.specs.RequireQuestion.{require_question};
ghost use Rattle.md_require.specs.RequireVerdicts.{ClaimHolds};

use crate::Condition;
use crate::question::Requiring;
use md_num::NoMemory;
use md_question::Finding;
use md_question_check::{Verdict, check_infeasible, check_optimal, check_unbounded};
use md_setting::Setting;
use std::alloc::Global;

/// The verdict on what is said to be the best mechanism of a setting among those that meet conditions: valid where all its
/// conditions hold, and else rejected with the first condition that fails. Nothing but want of memory is an error.
pub(crate) fn check_required(
    alloc: Global,
    setting: &Setting,
    conditions: &[Condition],
    finding: &Finding,
) -> Result<Verdict, NoMemory>
    requires conditions { AreConditionsFor setting.now conditions.now }
    requires finding { IsFindingTo (require_question setting.now conditions.now) finding.now }
    ensures verdict { IfOk result (IsVerdictOn (require_question setting.now conditions.now) finding.now) }
    ensures decided { IfOk result (λ verdict. verdict ≢ Undecided) }

    // No other verdict is right, and what a valid answer claims is so.
    ensures only { IfOk result (λ verdict. (other : Verdict) → IsVerdictOn (require_question setting.now conditions.now) finding.now other → other ≡ verdict) }
    ensures claim { IfOk result (λ verdict. verdict ≡ Valid → ClaimHolds setting.now conditions.now finding.now) }
{
    check_finding(alloc, setting, conditions, finding)
}

// The verdict on what was found.
fn check_finding(
    alloc: Global,
    setting: &Setting,
    conditions: &[Condition],
    finding: &Finding,
) -> Result<Verdict, NoMemory>
    requires conditions { AreConditionsFor setting.now conditions.now }
    requires finding { IsFindingTo (require_question setting.now conditions.now) finding.now }
    ensures verdict { IfOk result (IsVerdictOn (require_question setting.now conditions.now) finding.now) }
    ensures only { IfOk result (λ verdict. (other : Verdict) → IsVerdictOn (require_question setting.now conditions.now) finding.now other → other ≡ verdict) }
    ensures claim { IfOk result (λ verdict. verdict ≡ Valid → ClaimHolds setting.now conditions.now finding.now) }
{
    let asked = Requiring::new(setting, conditions);
    match finding {
        Finding::Optimal {
            value,
            mechanism,
            bound,
        } => check_optimal(alloc, &asked, value, mechanism, bound),
        Finding::Infeasible { face } => check_infeasible(alloc, &asked, face),
        Finding::Unbounded { mechanism, ray } => check_unbounded(alloc, &asked, mechanism, ray),
    }
}
