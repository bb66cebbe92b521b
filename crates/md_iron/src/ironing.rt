//! Auctions ironed.
ghost use Rattle.std.specs.Prelude.{◌≡◌, IfOk};
ghost use Rattle.md_setting.specs.ByKind.{IsBidders, IsGeneral, WhereAuction};
ghost use Rattle.md_answer.specs.AuctionAnswerTo.{IsAuctionAnswer};
ghost use Rattle.md_check.specs.AuctionVerdicts.{AuctionClaimHolds, IsAuctionVerdict};
ghost use Rattle.md_question_check.specs.declared.verdict.Verdict.TheVariants.{Valid};
ghost use Rattle.md_iron.specs.declared.ironed.Ironed.TheVariants.{Undecided};
ghost use Rattle.md_iron.specs.ClosedForms.{HasLongMultipliers, IsClosedAnswer, IsOneAnswer, IsPaidWithinValue};
ghost use Rattle.md_iron.specs.Ironings.{WhereOptimal};

use crate::answers::closed_answer;
use crate::ironed::Ironed;
use md_check::{Verdict, check};
use md_num::NoMemory;
use md_setting::SettingFile;
use std::alloc::Global;

/// The best that an auction can be, in closed form: neighbouring values are pooled by their ironed virtual values (Myerson
/// 1981), the item goes to a bidder whose pool is highest, and the multipliers that certify it are told with it. The checker
/// has found the answer valid. The auction is undecided where the multipliers are too long.
/// Nothing but want of memory is an error.
pub fn iron(alloc: Global, file: &SettingFile) -> Result<Ironed, NoMemory>
    requires general { ¬ IsGeneral file.now }
    requires bidders { ¬ IsBidders file.now }

    // The odds, payments, cuts and multipliers are those of the pools that the rule names, over the least denominator, and the
    // masses have the odds. There are no others: each such answer differs from it in nothing but its masses, and the multipliers
    // are not too long.
    ensures closed { WhereAuction (λ a. IfOk result (WhereOptimal (IsClosedAnswer a))) file.now }
    ensures one { WhereAuction (λ a. IfOk result (WhereOptimal (IsOneAnswer a))) file.now }

    // Each value pays from nothing to what the item is worth to it, as often as it has it.
    ensures pays { WhereAuction (λ a. IfOk result (WhereOptimal (IsPaidWithinValue a))) file.now }

    // The checker finds the answer valid. Its mechanism is optimal over all mechanisms of the auction, has exactly the odds and
    // payments, and has the value.
    ensures valid { WhereAuction (λ a. IfOk result (WhereOptimal (λ answer. IsAuctionVerdict a answer Valid))) file.now }
    ensures optimal { WhereAuction (λ a. IfOk result (WhereOptimal (AuctionClaimHolds a))) file.now }

    // The answer can be written, and what is written is read as the same answer.
    ensures writable { WhereAuction (λ a. IfOk result (WhereOptimal (IsAuctionAnswer a))) file.now }

    // There is no answer only where no multipliers of 62 bits, over a denominator of 62 bits, are those of the pools that the
    // rule names; and where revenue counts none are, over whatever denominator.
    ensures undecided { WhereAuction (λ a. IfOk result (λ ironed. ironed ≡ Undecided → HasLongMultipliers a 1)) file.now }
{
    let SettingFile::Auction(auction) = file else {
        unreachable!()
    };
    let Some(answer) = closed_answer(alloc, auction)? else {
        return Ok(Ironed::Undecided);
    };
    match check(alloc, file, &answer)? {
        Verdict::Valid => Ok(Ironed::Optimal(answer)),
        Verdict::Undecided | Verdict::Rejected(_) => unreachable!(),
    }
}
