//! The verdict on an answer to a question.
ghost use Rattle.std.specs.Prelude.{◌≡◌, ◌↔◌, IfOk, IfSome, IsNone, MatchOption};
ghost use Rattle.md_lp.specs.Program.{Program};
ghost use Rattle.md_mech.specs.Accepted.{IsAccepted};
ghost use Rattle.md_mech.specs.Admissible.{IsAdmissible};
ghost use Rattle.md_mech.specs.Rows.{IsFirstBroken, conditions_of};
ghost use Rattle.md_cert.specs.declared.certificate.Certificate.TheVariants as certificates;
ghost use Rattle.md_cert.specs.Fitting.{Fits};
ghost use Rattle.md_parts.specs.Fitting.{AreMultipliers, IsBoundOver, IsFraction, IsRayFor};
ghost use Rattle.md_question.specs.Question.{AdmitsNone, IsProgramFor, IsQuestion};
ghost use Rattle.md_question_check.specs.declared.verdict.Verdict.{Verdict};
ghost use Rattle.md_question_check.specs.declared.verdict.Verdict.TheVariants.{Valid};
ghost use Rattle.md_question_check.specs.Certificates.{HasMetPoint, IsJudged, Judges};
ghost use Rattle.md_question_check.specs.Verdicts.{HasNarrowLevel, IsOptimalVerdict, IsUnboundedVerdict, IsWideLevel, TellsNotAdmitted};

use crate::checks::Checks;
use crate::faults::verdict_by;
use crate::verdict::{Reject, Verdict};
use md_cert::{Bound, Certificate, check_lp};
use md_claims::infeasible_certificate;
use md_lp::Lp;
use md_mech::{Broken, Mechanism, audit};
use md_num::{Frac, NoMemory, Nums};
use md_question::Asks;
use std::alloc::Global;

/// The verdict on a mechanism with its value and multipliers: valid where all conditions hold, and else rejected with the first one
/// that fails. No other verdict is right, and where it is valid the mechanism is best by the question and has the value.
///
/// # Errors
/// Nothing but want of memory.
pub fn check_optimal<Q: Checks>(
    alloc: Global,
    question: &Q,
    value: &Frac,
    mechanism: &Mechanism,
    bound: &Bound,
) -> Result<Verdict, NoMemory>
    requires fraction { IsFraction value.now.num value.now.den }
    requires accepted { IsAccepted (Q.asked question.now).setting mechanism.now }
    requires bound { IsBoundOver (Q.asked question.now).rows bound.now }
    ensures verdict { IfOk result (IsOptimalVerdict (Q.asked question.now) value.now mechanism.now bound.now) }
    ensures only { IfOk result (λ verdict. (other : Verdict) → IsOptimalVerdict (Q.asked question.now) value.now mechanism.now bound.now other → other ≡ verdict) }
    ensures claim { IfOk result (λ verdict. verdict ≡ Valid → (Q.asked question.now).is_optimal mechanism.now × (Q.asked question.now).has_value mechanism.now value.now) }
{
    if let Some(reject) = not_admitted(question, mechanism) {
        return Ok(Verdict::Rejected(reject));
    }
    if let Some(right) = question.other_value(mechanism, value) {
        return Ok(Verdict::Rejected(Reject::Value { right }));
    }
    if let Some(level) = wide_level(question, mechanism) {
        return Ok(Verdict::Rejected(Reject::Level { level }));
    }
    let certificate = question.optimal(alloc, mechanism, bound)?;
    judge_by(alloc, question, &certificate)
}

/// The one verdict on multipliers that leave no mechanism. Where it is valid none is admitted.
///
/// # Errors
/// Nothing but want of memory.
pub fn check_infeasible<Q: Checks>(
    alloc: Global,
    question: &Q,
    face: &Nums,
) -> Result<Verdict, NoMemory>
    requires { AreMultipliers (Q.asked question.now).rows face.now }
    ensures verdict { IfOk result (IsJudged (Q.asked question.now) (certificates.Infeasible face.now)) }
    ensures only { IfOk result (λ verdict. (other : Verdict) → IsJudged (Q.asked question.now) (certificates.Infeasible face.now) other → other ≡ verdict) }
    ensures claim { IfOk result (λ verdict. verdict ≡ Valid → AdmitsNone (Q.asked question.now)) }
{
    let _laws = question.setting();
    let certificate = infeasible_certificate(alloc, face)?;
    judge_by(alloc, question, &certificate)
}

/// The one verdict on a mechanism with payments that may be added again and again. Where it is valid the mechanism grows along
/// them.
///
/// # Errors
/// Nothing but want of memory.
pub fn check_unbounded<Q: Checks>(
    alloc: Global,
    question: &Q,
    mechanism: &Mechanism,
    ray: &Nums,
) -> Result<Verdict, NoMemory>
    requires accepted { IsAccepted (Q.asked question.now).setting mechanism.now }
    requires ray { IsRayFor (Q.asked question.now).setting ray.now }
    ensures verdict { IfOk result (IsUnboundedVerdict (Q.asked question.now) mechanism.now ray.now) }
    ensures only { IfOk result (λ verdict. (other : Verdict) → IsUnboundedVerdict (Q.asked question.now) mechanism.now ray.now other → other ≡ verdict) }
    ensures claim { IfOk result (λ verdict. verdict ≡ Valid → (Q.asked question.now).grows mechanism.now ray.now) }
{
    if let Some(reject) = not_admitted(question, mechanism) {
        return Ok(Verdict::Rejected(reject));
    }
    if let Some(level) = wide_level(question, mechanism) {
        return Ok(Verdict::Rejected(Reject::Level { level }));
    }
    let certificate = question.unbounded(alloc, mechanism, ray)?;
    judge_by(alloc, question, &certificate)
}

// The first condition of the setting that a mechanism breaks, or else the first one of the question that it does not meet.
fn not_admitted<Q: Checks>(question: &Q, mechanism: &Mechanism) -> Option<Reject>
    requires { IsAccepted (Q.asked question.now).setting mechanism.now }
    ensures admitted { MatchOption result ((Q.asked question.now).admits mechanism.now) (TellsNotAdmitted (Q.asked question.now) mechanism.now) }
    ensures laws { IsQuestion (Q.asked question.now) }
{
    if let Some(broken) = broken(question, mechanism) {
        return Some(Reject::Audit { broken });
    }
    match question.unmet(mechanism) {
        Some(unmet) => Some(Reject::Unmet { unmet }),
        None => None,
    }
}

// The first condition of the setting that a mechanism breaks.
fn broken<Q: Asks>(question: &Q, mechanism: &Mechanism) -> Option<Broken>
    requires { IsAccepted (Q.asked question.now).setting mechanism.now }
    ensures admissible { IsNone result ↔ IsAdmissible (Q.asked question.now).setting mechanism.now }
    ensures broken { IfSome result (IsFirstBroken (Q.asked question.now).setting mechanism.now (conditions_of (Q.asked question.now).setting) 0) }
    ensures laws { IsQuestion (Q.asked question.now) }
{
    audit(question.setting(), mechanism)
}

// The level of a mechanism, where it has more than 62 bits.
fn wide_level<Q: Checks>(question: &Q, mechanism: &Mechanism) -> Option<i128>
    requires { IsAccepted (Q.asked question.now).setting mechanism.now }
    ensures { MatchOption result (HasNarrowLevel (Q.asked question.now) mechanism.now) (IsWideLevel (Q.asked question.now) mechanism.now) }
{
    let level = question.level(mechanism);
    if level.unsigned_abs() < 1 << 62 {
        None
    } else {
        Some(level)
    }
}

// The verdict on a certificate by the question's program.
fn judge_by<Q: Asks>(
    alloc: Global,
    question: &Q,
    certificate: &Certificate,
) -> Result<Verdict, NoMemory>
    requires fits { (p : Program) → IsProgramFor (Q.asked question.now) p → Fits p certificate.now }
    requires met { (p : Program) → IsProgramFor (Q.asked question.now) p → HasMetPoint p certificate.now }
    ensures { IfOk result (IsJudged (Q.asked question.now) certificate.now) }
{
    let lp = question.program(alloc)?;
    Ok(judge(&lp, certificate))
}

// The verdict on a certificate whose point meets the program.
fn judge(lp: &Lp, certificate: &Certificate) -> Verdict
    requires fits { Fits lp.now certificate.now }
    requires met { HasMetPoint lp.now certificate.now }
    ensures { Judges lp.now certificate.now result }
{
    verdict_by(check_lp(lp, certificate))
}
