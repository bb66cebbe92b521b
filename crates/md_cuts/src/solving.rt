//! Symmetric auctions solved.
ghost use Rattle.std.specs.Prelude.{◌≡◌, ◌<◌, ◌^◌, List, ℕ, IfErr, IfOk, MatchResult, length};
ghost use Rattle.md_setting.specs.Auction.{value_count};
ghost use Rattle.md_setting.specs.General.{general_of};
ghost use Rattle.md_lp.specs.declared.wide.Wide.{Wide};
ghost use Rattle.md_mech.specs.Optimal.{IsOptimal};
ghost use Rattle.md_lp.specs.Cuts.{AreCuts};
ghost use Rattle.md_border.specs.Odds.{HasOdds, HasPays, IsInterim};
ghost use Rattle.md_expost.specs.Implementing.{Implements};
ghost use Rattle.md_expost.specs.Masses.{AreMasses};
ghost use Rattle.md_cuts.specs.declared.auction_end.AuctionEnd.{AuctionEnd};
ghost use Rattle.md_cut_runs.specs.declared.cuts_error.CutsError.TheVariants.{Memory};
ghost use Rattle.md_cut_runs.specs.declared.optimum.Optimum.{Optimum};
ghost use Rattle.md_cuts.specs.AuctionCuts.{IsSolvedAuction, TellsOptimum, auction_cutting, mechanism_in};
ghost use Rattle.md_cut_runs.specs.CutRuns.{EndsSettled, EndsWide, HasSmallEntries, IsLeftAt, TellsWide, WhereWide};

use crate::auction_cuts::ItemSale;
use crate::{AuctionEnd, CutsError};
use md_cut_runs::cut_run;
use md_num::Width;
use md_setting::Auction;
use std::alloc::Global;

/// Solves an auction: the cut run over its reduced programs, which begins with the sets of one value each. Its end is an
/// optimal mechanism, or a program both paths of which have a basis that is too wide. Every auction has an optimal
/// mechanism, so that nothing else comes but want of memory.
pub fn solve_auction(
    alloc: Global,
    auction: &Auction,
    width: Width,
) -> Result<AuctionEnd, CutsError>
    // The cuts are those of the cut run, and odds, payments and bound are read off the taken path of the last program.
    ensures solved { IfOk result (IsSolvedAuction auction.now width) }
    ensures left { IfErr result (IsLeftAt (auction_cutting auction.now) width) }
    ensures small { IfErr result HasSmallEntries }

    // The mass table has exactly these odds.
    ensures fits { IfOk result (λ end. IsInterim auction.now end.interim) }
    ensures masses { IfOk result (λ end. AreMasses auction.now end.masses) }
    ensures implements { IfOk result (λ end. Implements auction.now end.interim end.masses) }

    // Its mechanism is optimal over all mechanisms of the auction, of any denominator, with numbers of any size.
    ensures optimal { IfOk result (λ end. IsOptimal (general_of auction.now) (mechanism_in auction.now end)) }
    ensures odds { IfOk result (λ end. HasOdds auction.now (mechanism_in auction.now end) end.interim.den end.interim.odds) }
    ensures pays { IfOk result (λ end. HasPays auction.now (mechanism_in auction.now end) end.interim.den end.interim.pays) }

    // There is one run, and it has one end.
    ensures settled { (cuts : List ℕ) (optimum : Optimum) → EndsSettled (auction_cutting auction.now) width cuts optimum → MatchResult result (TellsOptimum auction.now cuts optimum) (λ error. error ≡ Memory) }
    ensures wide { (cuts : List ℕ) (first second : Wide) → EndsWide (auction_cutting auction.now) width cuts first second → MatchResult result (λ _. ⊥) (TellsWide cuts first second) }

    // No cut comes twice, so that there are fewer than there are sets of values.
    ensures distinct { MatchResult result (λ end. AreCuts (value_count auction.now) end.cuts) (WhereWide (AreCuts (value_count auction.now))) }
    ensures few { MatchResult result (λ end. length end.cuts < 2 ^ value_count auction.now) (WhereWide (λ cuts. length cuts < 2 ^ value_count auction.now)) }
{
    let _shaped = auction.kinds();
    let sale = ItemSale { auction };
    match cut_run(alloc, &sale, width) {
        Ok(end) => Ok(AuctionEnd {
            cuts: end.cuts,
            interim: end.table.interim,
            masses: end.table.masses,
            bound: end.optimum.bound,
        }),
        Err(error) => Err(error),
    }
}
