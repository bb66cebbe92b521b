//! The verdict on an answer that tells the shadows of its conditions.
ghost use Rattle.std.specs.Prelude.{◌≡◌, ◌≤◌, ◌↔◌, length, IfOk, IsTrue};
ghost use Rattle.md_question.specs.Shown.{IsFindingTo};
ghost use Rattle.md_require.specs.declared.required_verdict.RequiredVerdict.{RequiredVerdict};
ghost use Rattle.md_require.specs.declared.required_verdict.RequiredVerdict.TheVariants.{Valid};
ghost use Rattle.md_require.specs.Limits.{AreConditionsFor};
ghost use Rattle.md_require.specs.RequireQuestion.{require_question};
ghost use Rattle.md_require.specs.RequireVerdicts.{AnswerHolds, IsComparison, IsRequiredVerdict, IsShadowVerdict, TellsEach};

use crate::checking::check_required;
use crate::shadow_prices::shadows;
use crate::{Condition, RequiredVerdict};
use md_num::{Frac, NoMemory};
use md_question::Finding;
use md_question_check::Verdict;
use md_setting::Setting;
use std::alloc::Global;

/// The verdict on what is said to be the best mechanism of a setting among those that meet conditions, with a shadow of each condition,
/// or none, where it is optimal: that of `check_required`, and where what was found is valid, the first shadow that is told otherwise
/// than its multipliers say. Nothing but want of memory is an error.
pub fn check_told(
    alloc: Global,
    setting: &Setting,
    conditions: &[Condition],
    finding: &Finding,
    told: &[Option<Frac>],
) -> Result<RequiredVerdict, NoMemory>
    requires conditions { AreConditionsFor setting.now conditions.now }
    requires finding { IsFindingTo (require_question setting.now conditions.now) finding.now }
    requires told { TellsEach conditions.now finding.now told.now }
    ensures verdict { IfOk result (IsRequiredVerdict setting.now conditions.now finding.now told.now) }

    // No other verdict is right, and what a valid answer claims is so, its shadows too.
    ensures only { IfOk result (λ verdict. (other : RequiredVerdict) → IsRequiredVerdict setting.now conditions.now finding.now told.now other → other ≡ verdict) }
    ensures claim { IfOk result (λ verdict. verdict ≡ Valid → AnswerHolds setting.now conditions.now finding.now told.now) }
{
    let _weight = setting.total();
    match check_required(alloc, setting, conditions, finding)? {
        Verdict::Rejected(reject) => Ok(RequiredVerdict::Rejected { reject }),
        _ => check_shadows(alloc, setting, conditions, finding, told),
    }
}

// The verdict on the shadows.
fn check_shadows(
    alloc: Global,
    setting: &Setting,
    conditions: &[Condition],
    finding: &Finding,
    told: &[Option<Frac>],
) -> Result<RequiredVerdict, NoMemory>
    requires conditions { AreConditionsFor setting.now conditions.now }
    requires finding { IsFindingTo (require_question setting.now conditions.now) finding.now }
    requires told { TellsEach conditions.now finding.now told.now }
    ensures { IfOk result (IsShadowVerdict setting.now conditions.now finding.now told.now) }
{
    match finding {
        Finding::Optimal {
            value: _,
            mechanism: _,
            bound,
        } => {
            let rights = shadows(alloc, setting, conditions, bound)?;
            Ok(compared(&rights, told))
        }
        _ => Ok(RequiredVerdict::Valid),
    }
}

// The first shadow that is told otherwise than it is right.
fn compared(rights: &[Option<Frac>], told: &[Option<Frac>]) -> RequiredVerdict
    requires one_each { length told.now ≡ length rights.now }
    requires few { length rights.now ≤ 1000 }
    ensures { IsComparison rights.now told.now result }
{
    for index in 0..rights.len() {
        if !is_same(&told[index], &rights[index]) {
            return RequiredVerdict::Shadow {
                index: index as u32,
                right: rights[index],
            };
        }
    }
    RequiredVerdict::Valid
}

// Whether two shadows are the same, or both are not told.
fn is_same(left: &Option<Frac>, right: &Option<Frac>) -> bool
    ensures { IsTrue result ↔ (left.now ≡ right.now) }
{
    match (left, right) {
        (Some(left), Some(right)) => left == right,
        (None, None) => true,
        _ => false,
    }
}
