//! The verdict on an answer about the best mechanism of a sale.
ghost use Rattle.std.specs.Prelude.{◌≡◌, ◌↔◌, ◌<ℤ◌, pos, IfNone, IfOk, IfSome, IsNone, MatchOption};
ghost use Rattle.md_setting.specs.Shaped.{IsShaped};
ghost use Rattle.md_lp.specs.Program.{Program};
ghost use Rattle.md_cert.specs.Certified.{Certified};
ghost use Rattle.md_cert.specs.Fault.{IsFirstFault};
ghost use Rattle.md_question_check.specs.declared.verdict.Verdict.{Verdict};
ghost use Rattle.md_question_check.specs.declared.verdict.Verdict.TheVariants.{Rejected, Undecided, Valid};
ghost use Rattle.md_cut_check.specs.CutClaims.{AddUp, IsCutVerdict, IsOtherWorth, certificate_of};
ghost use Rattle.md_asym_sale.specs.ProgramOf.{IsSaleProgram};
ghost use Rattle.md_asym_sale.specs.Sale.{IsSale};
ghost use Rattle.md_asym.specs.AnswerTo.{IsAnswerTo, IsSaleAnswer};
ghost use Rattle.md_asym.specs.SaleVerdicts.{ClaimHolds, ClaimsNothing, HasWorth, IsBestSale, IsSaleVerdict, sale_claim};

use crate::asym_answer::AsymAnswer;
use crate::sale_answer::SaleAnswer;
use crate::worth::sale_worth;
use md_asym_sale::{pair_count, program};
use md_asym_tables::{demand, mass_sum};
use md_cert::{CertFault, check_lp};
use md_claims::{auction_certificate, is_same_number};
use md_num::{Frac, NoMemory};
use md_question_check::{Reject, Verdict, verdict_by};
use md_setting::Setting;
use std::alloc::Global;

/// The verdict on an answer about the best mechanism of a sale: valid where all its conditions hold, undecided where it claims
/// nothing, and else rejected with the first condition that fails. Nothing but want of memory is an error.
pub fn check_asym(
    alloc: Global,
    setting: &Setting,
    answer: &SaleAnswer,
) -> Result<Verdict, NoMemory>
    requires sale { IsSale setting.now }
    requires answer { IsSaleAnswer setting.now answer.now }
    ensures verdict { IfOk result (IsSaleVerdict setting.now answer.now) }
    ensures undecided { IfOk result (λ verdict. (verdict ≡ Undecided) ↔ ClaimsNothing answer.now) }

    // No other verdict is right, and what a valid answer claims is so.
    ensures only { IfOk result (λ verdict. (other : Verdict) → IsSaleVerdict setting.now answer.now other → other ≡ verdict) }
    ensures claim { IfOk result (λ verdict. verdict ≡ Valid → ClaimHolds setting.now answer.now) }
{
    match answer {
        SaleAnswer::Optimal(best) => check_best(alloc, setting, best),
        SaleAnswer::TooWide { .. } => Ok(Verdict::Undecided),
    }
}

// The verdict on odds and payments with their value, masses, cuts and multipliers.
fn check_best(alloc: Global, setting: &Setting, answer: &AsymAnswer) -> Result<Verdict, NoMemory>
    requires sale { IsSale setting.now }
    requires answer { IsAnswerTo setting.now answer.now }
    ensures verdict { IfOk result (IsCutVerdict (sale_claim setting.now answer.now)) }
    ensures only { IfOk result (λ verdict. (other : Verdict) → IsCutVerdict (sale_claim setting.now answer.now) other → other ≡ verdict) }
    ensures claim { IfOk result (λ verdict. verdict ≡ Valid → IsBestSale setting.now answer.now) }
{
    if let Some(reject) = other_mass(setting, answer) {
        return Ok(Verdict::Rejected(reject));
    }
    judge_odds(alloc, setting, answer)
}

// The first pair whose masses are more or less than its demand, with both.
fn other_mass(setting: &Setting, answer: &AsymAnswer) -> Option<Reject>
    requires { IsAnswerTo setting.now answer.now }
    ensures none { IfNone result (AddUp (sale_claim setting.now answer.now)) }
    ensures some { IfSome result (λ reject. IsCutVerdict (sale_claim setting.now answer.now) (Rejected reject)) }
    ensures shaped { IsShaped setting.now }
{
    for pair in 0..pair_count(setting) {
        let sum = mass_sum(setting, &answer.masses, pair);
        let demand = demand(setting, &answer.interim.odds, pair);
        if sum != demand {
            return Some(Reject::Masses {
                kind: pair,
                sum,
                demand,
            });
        }
    }
    None
}

// The verdict on odds and payments whose masses add up, by the program with the cuts.
fn judge_odds(alloc: Global, setting: &Setting, answer: &AsymAnswer) -> Result<Verdict, NoMemory>
    requires sale { IsSale setting.now }
    requires answer { IsAnswerTo setting.now answer.now }
    requires add_up { AddUp (sale_claim setting.now answer.now) }
    ensures { IfOk result (IsCutVerdict (sale_claim setting.now answer.now)) }
{
    let _shaped = setting.total();
    let lp = program(alloc, setting, &answer.cuts)?;
    let certificate = auction_certificate(alloc, &answer.interim, &answer.bound)?;
    let fault = check_lp(&lp, &certificate);
    Ok(judge_fault(setting, answer, fault))
}

// The verdict on odds and payments by the first fault of their point with its multipliers: a row that the point breaks comes
// before the value, and any other fault after it.
fn judge_fault(setting: &Setting, answer: &AsymAnswer, fault: Option<CertFault>) -> Verdict
    requires sale { IsSale setting.now }
    requires shaped { IsShaped setting.now }
    requires answer { IsAnswerTo setting.now answer.now }
    requires add_up { AddUp (sale_claim setting.now answer.now) }
    ensures { (p : Program) → IsSaleProgram setting.now (answer.now).cuts p → (IsNone fault ↔ Certified p (certificate_of (sale_claim setting.now answer.now))) → IfSome fault (IsFirstFault p (certificate_of (sale_claim setting.now answer.now))) → IsCutVerdict (sale_claim setting.now answer.now) result }
{
    if let Some(CertFault::Point { row, left, right }) = fault {
        return Verdict::Rejected(Reject::Reduced { row, left, right });
    }
    if let Some(right) = other_worth(setting, answer) {
        return Verdict::Rejected(Reject::Value { right });
    }
    verdict_by(fault)
}

// The value of the odds and payments in least terms, where the printed value is another number.
fn other_worth(setting: &Setting, answer: &AsymAnswer) -> Option<Frac>
    requires sale { IsSale setting.now }
    requires answer { IsAnswerTo setting.now answer.now }
    ensures { MatchOption result (HasWorth setting.now answer.now (answer.now).value) (IsOtherWorth (sale_claim setting.now answer.now)) }
{
    let _shaped = setting.total();
    let interim = &answer.interim;
    let right = sale_worth(setting, interim.den, &interim.odds, &interim.pays);
    if is_same_number(&answer.value, &right) {
        None
    } else {
        Some(right)
    }
}
