//! Cut runs of auctions, and what is told of their ends.
ghost use Rattle.std.specs.Prelude.{◌≡◌, ℕ, List, Some, IfOk};
ghost use Rattle.md_lp.specs.Program.{Program};
ghost use Rattle.md_lp.specs.declared.wide.Wide.{Wide};
ghost use Rattle.md_cut_runs.specs.declared.optimum.Optimum.{Optimum};
ghost use Rattle.md_cuts.specs.AuctionCuts.{auction_cutting};
ghost use Rattle.md_cut_runs.specs.CutRuns.{EndsSettled, EndsWide};
ghost use Rattle.md_answer.specs.AuctionAnswerTo.{IsAuctionAnswer};
ghost use Rattle.md_answer.specs.declared.answer.Answer.{Answer};
ghost use Rattle.md_solve.specs.AuctionSolved.{ClaimsAuctionOptimal, IsAuctionSo, IsAuctionSolved, IsCertifiedAuction, IsSameButMasses, WhereAuctionOptimal};

use md_answer::Answer;
use md_border::auction_worth;
use md_cuts::{CutsError, solve_auction};
use md_num::{NoMemory, Width};
use md_setting::Auction;
use std::alloc::Global;

/// The answer to an auction.
pub(crate) fn solve_by_cuts(
    alloc: Global,
    auction: &Auction,
    width: Width,
) -> Result<Answer, NoMemory>
    ensures solved { IfOk result (IsAuctionSolved auction.now width) }
    ensures only { (other : Answer) → IsAuctionSolved auction.now width other → IfOk result (λ answer. IsSameButMasses answer other) }
    ensures optimal { IfOk result (WhereAuctionOptimal (IsAuctionSo auction.now)) }
    ensures certified { (p : Program) → IfOk result (IsCertifiedAuction auction.now p) }
    ensures settled { (cuts : List ℕ) (optimum : Optimum) → EndsSettled (auction_cutting auction.now) width cuts optimum → IfOk result ClaimsAuctionOptimal }
    ensures wide { (cuts : List ℕ) (first second : Wide) → EndsWide (auction_cutting auction.now) width cuts first second → IfOk result (λ answer. answer ≡ Answer.TooWide cuts first (Some second)) }
    ensures writable { IfOk result (IsAuctionAnswer auction.now) }
{
    let _shaped = auction.kinds();
    match solve_auction(alloc, auction, width) {
        Ok(end) => Ok(Answer::AuctionOptimal {
            value: auction_worth(auction, &end.interim),
            interim: end.interim,
            masses: end.masses,
            cuts: end.cuts,
            bound: end.bound,
        }),
        Err(
            CutsError::TooWide {
                cuts,
                first,
                second,
            },
        ) => Ok(Answer::TooWide {
            cuts,
            first,
            second: Some(second),
        }),
        Err(CutsError::Memory) => Err(NoMemory),
    }
}
