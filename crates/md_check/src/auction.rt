//! The verdict on an answer about an auction, or about several units.
ghost use Rattle.std.specs.Prelude.{◌≡◌, ◌↔◌, ◌≤ℤ◌, pos, IsNone, IfSome, IfNone, IfOk, List, ℕ};
ghost use Rattle.md_num.specs.declared.frac.Frac.{Frac};
ghost use Rattle.md_setting.specs.Auction.{value_count};
ghost use Rattle.md_setting.specs.AuctionShaped.{IsAuction};
ghost use Rattle.md_lp.specs.Cuts.{AreCuts};
ghost use Rattle.md_lp.specs.Program.{Program};
ghost use Rattle.md_border.specs.Odds.{IsInterim};
ghost use Rattle.md_expost.specs.declared.masses.Masses.{Masses};
ghost use Rattle.md_mech.specs.Accepted.{number_limit};
ghost use Rattle.md_unit_tables.specs.Numbers.{IsUnitNumber};
ghost use Rattle.md_unit_tables.specs.Tables.{IsUnitTable};
ghost use Rattle.md_cert.specs.declared.bound.Bound.{Bound};
ghost use Rattle.md_cert.specs.Certified.{Certified};
ghost use Rattle.md_cert.specs.Fault.{IsFirstFault};
ghost use Rattle.md_reduced.specs.ProgramOf.{IsReducedProgram};
ghost use Rattle.md_parts.specs.Fitting.{IsFraction, IsBoundOver};
ghost use Rattle.md_answer.specs.AuctionAnswerTo.{IsAnswerFor};
ghost use Rattle.md_answer.specs.ReducedRows.{reduced_rows};
ghost use Rattle.md_answer.specs.Supplies.{AreMassesOf, units_in};
ghost use Rattle.md_claims.specs.AuctionCertificates.{auction_certificate};
ghost use Rattle.md_question_check.specs.declared.verdict.Verdict.{Verdict};
ghost use Rattle.md_question_check.specs.declared.verdict.Verdict.TheVariants.{Valid, Undecided, Rejected};
ghost use Rattle.md_check.specs.AuctionVerdicts.{AddUp, IsAuctionOptimalVerdict, IsVerdictFor, IsSoundFor, IsClaimed, ClaimHoldsFor};
ghost use Rattle.md_check.specs.Verdicts.{ClaimsNothing};

use crate::value::other_worth;
use md_answer::{Answer, Supply};
use md_border::{Interim, demand};
use md_cert::{Bound, CertFault, check_lp};
use md_claims::auction_certificate;
use md_expost::Masses;
use md_lp::Sets;
use md_num::{Frac, NoMemory};
use md_question_check::{Reject, Verdict, verdict_by};
use md_reduced::program_for;
use md_setting::Auction;
use md_unit_tables::mass_sum;
use std::alloc::Global;

/// The verdict on an answer about an auction of which this is sold: valid where all its conditions hold, undecided where it claims
/// nothing, and else rejected with the first condition that fails. Nothing but want of memory is an error.
pub fn check_auction(
    alloc: Global,
    auction: &Auction,
    supply: &Supply,
    answer: &Answer,
) -> Result<Verdict, NoMemory>
    requires { IsAnswerFor supply.now auction.now answer.now }
    ensures verdict { IfOk result (IsVerdictFor supply.now auction.now answer.now) }
    ensures undecided { IfOk result (λ verdict. (verdict ≡ Undecided) ↔ ClaimsNothing answer.now) }

    // No other verdict is right. Where all conditions hold nothing else is answered, and what the answer claims is so.
    ensures only { IfOk result (λ verdict. (other : Verdict) → IsVerdictFor supply.now auction.now answer.now other → other ≡ verdict) }
    ensures sound { IfOk result (λ verdict. (p : Program) → IsSoundFor supply.now auction.now p answer.now → verdict ≡ Valid) }
    ensures claim { IfOk result (λ verdict. verdict ≡ Valid → ClaimHoldsFor supply.now auction.now answer.now) }
{
    match answer {
        Answer::AuctionOptimal {
            value,
            interim,
            masses,
            cuts,
            bound,
        } => check_optimal(alloc, auction, supply, value, interim, masses, cuts, bound),
        Answer::TooWide { .. } => Ok(Verdict::Undecided),
        Answer::Table(_)
        | Answer::Optimal { .. }
        | Answer::Infeasible { .. }
        | Answer::Unbounded { .. } => unreachable!(),
    }
}

// The verdict on odds and payments with their value, masses, cuts and multipliers.
fn check_optimal(
    alloc: Global,
    auction: &Auction,
    supply: &Supply,
    value: &Frac,
    interim: &Interim,
    masses: &Masses,
    cuts: &Sets,
    bound: &Bound,
) -> Result<Verdict, NoMemory>
    requires fraction { IsFraction value.now.num value.now.den }
    requires interim { IsInterim auction.now interim.now }
    requires masses { AreMassesOf supply.now auction.now masses.now }
    requires same_den { masses.now.den ≡ interim.now.den }
    requires cuts { AreCuts (value_count auction.now) cuts.now }
    requires bound { IsBoundOver (reduced_rows auction.now cuts.now) bound.now }
    ensures verdict { IfOk result (IsAuctionOptimalVerdict auction.now (units_in supply.now) value.now interim.now masses.now cuts.now bound.now) }
    ensures only { IfOk result (λ verdict. (other : Verdict) → IsAuctionOptimalVerdict auction.now (units_in supply.now) value.now interim.now masses.now cuts.now bound.now other → other ≡ verdict) }
    ensures claim { IfOk result (λ verdict. verdict ≡ Valid → IsClaimed supply.now auction.now value.now interim.now masses.now) }
{
    if let Some(reject) = other_mass(auction, interim, masses) {
        return Ok(Verdict::Rejected(reject));
    }
    judge_odds(alloc, auction, supply.units(), value, interim, cuts, bound)
}

// The first value whose masses are more or less than its demand, with both.
fn other_mass(auction: &Auction, interim: &Interim, masses: &Masses) -> Option<Reject>
    requires interim { IsInterim auction.now interim.now }
    requires masses { (units : ℕ) × IsUnitTable auction.now units masses.now }
    requires den_small { masses.now.den ≤ℤ pos number_limit }
    ensures none { IfNone result (AddUp auction.now interim.now masses.now) }
    ensures some { IfSome result (λ reject. (units : ℕ) (value : Frac) (cuts : List ℕ) (bound : Bound) → IsAuctionOptimalVerdict auction.now units value interim.now masses.now cuts bound (Rejected reject)) }
    ensures shaped { IsAuction auction.now }
{
    for kind in 0..auction.kinds() {
        let sum = mass_sum(auction, masses, kind);
        let demand = demand(auction, interim, kind);
        if sum != demand {
            return Some(Reject::Masses { kind, sum, demand });
        }
    }
    None
}

// The verdict on odds and payments whose masses add up, by the reduced program of the units with the cuts.
fn judge_odds(
    alloc: Global,
    auction: &Auction,
    units: u32,
    value: &Frac,
    interim: &Interim,
    cuts: &Sets,
    bound: &Bound,
) -> Result<Verdict, NoMemory>
    requires units { IsUnitNumber units }
    requires fraction { IsFraction value.now.num value.now.den }
    requires interim { IsInterim auction.now interim.now }
    requires cuts { AreCuts (value_count auction.now) cuts.now }
    requires bound { IsBoundOver (reduced_rows auction.now cuts.now) bound.now }
    ensures { IfOk result (λ verdict. (masses : Masses) → AddUp auction.now interim.now masses → IsAuctionOptimalVerdict auction.now units value.now interim.now masses cuts.now bound.now verdict) }
{
    let lp = program_for(alloc, auction, units, cuts)?;
    let certificate = auction_certificate(alloc, interim, bound)?;
    let fault = check_lp(&lp, &certificate);
    Ok(judge_fault(auction, units, value, interim, fault))
}

// The verdict on odds and payments by the first fault of their point with its multipliers: a row that the point breaks comes
// before the value, and any other fault after it.
fn judge_fault(
    auction: &Auction,
    units: u32,
    value: &Frac,
    interim: &Interim,
    fault: Option<CertFault>,
) -> Verdict
    requires units { IsUnitNumber units }
    requires fraction { IsFraction value.now.num value.now.den }
    requires interim { IsInterim auction.now interim.now }
    ensures { (p : Program) (masses : Masses) (cuts : List ℕ) (bound : Bound) → IsReducedProgram auction.now units cuts p → AddUp auction.now interim.now masses → (IsNone fault ↔ Certified p (auction_certificate interim.now bound)) → IfSome fault (IsFirstFault p (auction_certificate interim.now bound)) → IsAuctionOptimalVerdict auction.now units value.now interim.now masses cuts bound result }
{
    if let Some(CertFault::Point { row, left, right }) = fault {
        return Verdict::Rejected(Reject::Reduced { row, left, right });
    }
    if let Some(right) = other_worth(auction, units, interim, value) {
        return Verdict::Rejected(Reject::Value { right });
    }
    verdict_by(fault)
}
