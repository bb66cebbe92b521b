//! The answer about one item.
ghost use Rattle.std.specs.Prelude.{IfOk, IfSome, MatchOption};
ghost use Rattle.md_setting.specs.AuctionShaped.{IsAuction};
ghost use Rattle.md_border.specs.Odds.{IsInterim};
ghost use Rattle.md_expost.specs.Implementing.{Implements};
ghost use Rattle.md_expost.specs.Masses.{AreMasses};
ghost use Rattle.md_expost.specs.WorstSets.{MeetsBorder};
ghost use Rattle.md_answer.specs.AuctionAnswerTo.{IsAuctionAnswer};
ghost use Rattle.md_iron.specs.ClosedForms.{HasLongMultipliers, IsClosedAnswer, IsOneAnswer, IsPaidWithinValue};

use crate::forms::closed_form;
use md_answer::Answer;
use md_border::{Interim, auction_worth};
use md_expost::{Masses, RealiseEnd, realise};
use md_num::NoMemory;
use md_setting::Auction;
use std::alloc::Global;

/// The answer of an auction's pools; none where their multipliers are too long.
pub(crate) fn closed_answer(alloc: Global, auction: &Auction) -> Result<Option<Answer>, NoMemory>
    ensures closed { IfOk result (λ answer. MatchOption answer (HasLongMultipliers auction.now 1) (IsClosedAnswer auction.now)) }
    ensures one { IfOk result (λ answer. IfSome answer (IsOneAnswer auction.now)) }
    ensures pays { IfOk result (λ answer. IfSome answer (IsPaidWithinValue auction.now)) }
    ensures writable { IfOk result (λ answer. IfSome answer (IsAuctionAnswer auction.now)) }
    ensures shaped { IfOk result (λ _. IsAuction auction.now) }
{
    let Some(form) = closed_form(alloc, auction, 1)? else {
        return Ok(None);
    };
    let masses = masses_of(alloc, auction, &form.interim)?;
    Ok(Some(Answer::AuctionOptimal {
        value: auction_worth(auction, &form.interim),
        interim: form.interim,
        masses,
        cuts: form.cuts,
        bound: form.bound,
    }))
}

// Masses that have odds of which no set of values asks for more than there is.
fn masses_of(alloc: Global, auction: &Auction, interim: &Interim) -> Result<Masses, NoMemory>
    requires fits { IsInterim auction.now interim.now }
    requires none_over { MeetsBorder auction.now interim.now }
    ensures masses { IfOk result (AreMasses auction.now) }
    ensures implements { IfOk result (Implements auction.now interim.now) }
{
    match realise(alloc, auction, interim)? {
        RealiseEnd::Table(masses) => Ok(masses),
        RealiseEnd::Violated(_) => unreachable!(),
    }
}
