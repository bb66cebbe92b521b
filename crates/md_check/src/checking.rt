//! The verdict on an answer.
ghost use Rattle.std.specs.Prelude.{◌≡◌, ◌↔◌, IfOk, true};
ghost use Rattle.md_setting.specs.ByKind.{WhereAuction, WhereGeneral, has_no_groups};
ghost use Rattle.md_lp.specs.Program.{Program};
ghost use Rattle.md_rows.specs.ProgramOf.{IsProgramOf};
ghost use Rattle.md_answer.specs.AnswerTo.{IsAnswerTo};
ghost use Rattle.md_answer.specs.AuctionAnswerTo.{IsAuctionAnswer};
ghost use Rattle.md_question_check.specs.declared.verdict.Verdict.{Verdict};
ghost use Rattle.md_question_check.specs.declared.verdict.Verdict.TheVariants.{Valid, Undecided};
ghost use Rattle.md_check.specs.AuctionVerdicts.{IsAuctionVerdict, IsSoundAuction, AuctionClaimHolds};
ghost use Rattle.md_check.specs.Verdicts.{IsVerdict, IsSound, ClaimsNothing, ClaimHolds};

use crate::auction::check_auction;
use md_answer::{Answer, Supply};
use md_num::NoMemory;
use md_question_check::{Verdict, check_infeasible, check_optimal, check_unbounded};
use md_setting::{Setting, SettingFile};
use std::alloc::Global;

/// The verdict on an answer about the setting or the auction of a file: valid where all its conditions hold, undecided where
/// it claims nothing, and else rejected with the first condition that fails. Nothing but want of memory is an error.
pub fn check(alloc: Global, file: &SettingFile, answer: &Answer) -> Result<Verdict, NoMemory>
    requires kind { has_no_groups file.now ≡ true }
    requires answer { WhereGeneral (λ s. IsAnswerTo s answer.now) file.now }
    requires auction_answer { WhereAuction (λ a. IsAuctionAnswer a answer.now) file.now }
    ensures verdict { WhereGeneral (λ s. IfOk result (IsVerdict s answer.now)) file.now }
    ensures auction_verdict { WhereAuction (λ a. IfOk result (IsAuctionVerdict a answer.now)) file.now }
    ensures undecided { IfOk result (λ verdict. (verdict ≡ Undecided) ↔ ClaimsNothing answer.now) }

    // No other verdict is right.
    ensures only { WhereGeneral (λ s. IfOk result (λ verdict. (other : Verdict) → IsVerdict s answer.now other → other ≡ verdict)) file.now }
    ensures auction_only { WhereAuction (λ a. IfOk result (λ verdict. (other : Verdict) → IsAuctionVerdict a answer.now other → other ≡ verdict)) file.now }

    // Where all conditions hold nothing else is answered, and what the answer claims is so.
    ensures sound { WhereGeneral (λ s. IfOk result (λ verdict. (p : Program) → IsProgramOf s p → IsSound s p answer.now → verdict ≡ Valid)) file.now }
    ensures auction_sound { WhereAuction (λ a. IfOk result (λ verdict. (p : Program) → IsSoundAuction a p answer.now → verdict ≡ Valid)) file.now }
    ensures claim { WhereGeneral (λ s. IfOk result (λ verdict. verdict ≡ Valid → ClaimHolds s answer.now)) file.now }
    ensures auction_claim { WhereAuction (λ a. IfOk result (λ verdict. verdict ≡ Valid → AuctionClaimHolds a answer.now)) file.now }
{
    match file {
        SettingFile::General(setting) => check_general(alloc, setting, answer),
        SettingFile::Auction(auction) => check_auction(alloc, auction, &Supply::Item, answer),
        SettingFile::Bidders(_) => unreachable!(),
    }
}

// The verdict on an answer to a general setting.
fn check_general(alloc: Global, setting: &Setting, answer: &Answer) -> Result<Verdict, NoMemory>
    requires { IsAnswerTo setting.now answer.now }
    ensures verdict { IfOk result (IsVerdict setting.now answer.now) }
    ensures only { IfOk result (λ verdict. (other : Verdict) → IsVerdict setting.now answer.now other → other ≡ verdict) }
    ensures claim { IfOk result (λ verdict. verdict ≡ Valid → ClaimHolds setting.now answer.now) }
{
    match answer {
        Answer::Table(_) | Answer::TooWide { .. } => Ok(Verdict::Undecided),
        Answer::Optimal {
            value,
            mechanism,
            bound,
        } => check_optimal(alloc, setting, value, mechanism, bound),
        Answer::Infeasible { face } => check_infeasible(alloc, setting, face),
        Answer::Unbounded { mechanism, ray } => check_unbounded(alloc, setting, mechanism, ray),
        Answer::AuctionOptimal { .. } => unreachable!(),
    }
}
