//! Settings and auctions solved.
ghost use Rattle.std.specs.Prelude.{◌≡◌, ◌↔◌, ℕ, List, Some, IfOk, true};
ghost use Rattle.md_setting.specs.ByKind.{WhereAuction, WhereGeneral, has_no_groups};
ghost use Rattle.md_lp.specs.Program.{Program};
ghost use Rattle.md_lp.specs.declared.pivot.Pivot.{Pivot};
ghost use Rattle.md_lp.specs.declared.wide.Wide.{Wide};
ghost use Rattle.md_mech.specs.Admissible.{IsAdmissible};
ghost use Rattle.md_mech.specs.Optimal.{Grows, IsInfeasible, IsOptimal};
ghost use Rattle.md_mech.specs.Value.{IsValueOf};
ghost use Rattle.md_rows.specs.ProgramOf.{IsProgramOf};
ghost use Rattle.md_simplex.specs.declared.order.Order.{Order};
ghost use Rattle.md_simplex.specs.declared.step.Step.{Step};
ghost use Rattle.md_simplex.specs.Runs.{IsTaken, MeetsWideBasis};
ghost use Rattle.md_cut_runs.specs.declared.optimum.Optimum.{Optimum};
ghost use Rattle.md_cuts.specs.AuctionCuts.{auction_cutting};
ghost use Rattle.md_cut_runs.specs.CutRuns.{EndsSettled, EndsWide};
ghost use Rattle.md_answer.specs.AnswerTo.{IsAnswerTo};
ghost use Rattle.md_answer.specs.AuctionAnswerTo.{IsAuctionAnswer};
ghost use Rattle.md_answer.specs.declared.answer.Answer.{Answer};
ghost use Rattle.md_solve.specs.Answered.{ClaimsEnd, ClaimsInfeasible, ClaimsUnbounded, IsMechanismAlone, IsTooWide, WhereInfeasible, WhereOptimal, WhereUnbounded};
ghost use Rattle.md_solve.specs.AuctionSolved.{ClaimsAuctionOptimal, IsAuctionSo, IsAuctionSolved, IsCertifiedAuction, IsSameButMasses, WhereAuctionOptimal};
ghost use Rattle.md_solve.specs.Bounds.{HasNoBound};
ghost use Rattle.md_solve.specs.Certifies.{IsCertifiedAnswer};
ghost use Rattle.md_solve.specs.Solved.{IsSolved, IsSolvedBy};

use crate::auctions::solve_by_cuts;
use crate::general::solve_general;
use md_answer::Answer;
use md_num::{NoMemory, Width};
use md_setting::SettingFile;
use std::alloc::Global;

/// Solves a setting: a path of its linear program is followed to its end, and what is read off there is told.
/// The answer is an optimal mechanism with its value and multipliers that show that no mechanism has a greater one;
/// or multipliers that show that no mechanism is admissible; or a mechanism with payments that may be added to it again
/// and again with a gain each time. There are two paths, one of each order of columns; the backward one is taken where the
/// forward one has a basis with an entry that is too wide. Where both have one, the pivots to the first such basis and its
/// first such entry are told instead, for each path.
///
/// Of an auction the programs of its cut run are solved so, one after the other, each with one more of Border's conditions.
/// The answer is a mass table whose mechanism is optimal, with its odds and payments, its value and multipliers of the last
/// program; or the cuts and both first wide bases of that program.
pub fn solve(alloc: Global, file: &SettingFile, width: Width) -> Result<Answer, NoMemory>
    requires { has_no_groups file.now ≡ true }
    ensures solved { WhereGeneral (λ s. IfOk result (IsSolved s width)) file.now }

    // A setting and a width have one answer.
    ensures only { WhereGeneral (λ s. (other : Answer) → IsSolved s width other → IfOk result (λ answer. answer ≡ other)) file.now }

    // What is claimed is so, over mechanisms of any denominator, with numbers of any size.
    ensures optimal { WhereGeneral (λ s. IfOk result (WhereOptimal (λ value mechanism bound. IsOptimal s mechanism))) file.now }
    ensures value { WhereGeneral (λ s. IfOk result (WhereOptimal (λ value mechanism bound. IsValueOf s mechanism value))) file.now }
    ensures infeasible { WhereGeneral (λ s. IfOk result (WhereInfeasible (λ face. IsInfeasible s))) file.now }
    ensures unbounded { WhereGeneral (λ s. IfOk result (WhereUnbounded (λ mechanism ray. Grows s mechanism ray))) file.now }
    ensures admissible { WhereGeneral (λ s. IfOk result (WhereUnbounded (λ mechanism ray. IsAdmissible s mechanism))) file.now }

    // A mechanism of which nothing is claimed is never the answer.
    ensures claims { WhereGeneral (λ s. IfOk result (λ answer. ¬ IsMechanismAlone answer)) file.now }

    // Where a path is taken, the claim is that of its end, and it is made wherever it is so.
    ensures taken { WhereGeneral (λ s. (p : Program) (order : Order) (pivots : List Pivot) (step : Step) → IsProgramOf s p → IsTaken order p width pivots step → IfOk result (ClaimsEnd step)) file.now }
    ensures none { WhereGeneral (λ s. IfOk result (λ answer. ¬ IsTooWide answer → ClaimsInfeasible answer ↔ IsInfeasible s)) file.now }
    ensures no_bound { WhereGeneral (λ s. IfOk result (λ answer. ¬ IsTooWide answer → ClaimsUnbounded answer ↔ HasNoBound s)) file.now }

    // Where a basis of each path is wide, this is told, and nothing else.
    ensures wide { WhereGeneral (λ s. (p : Program) → IsProgramOf s p → MeetsWideBasis Order.Forward p width → MeetsWideBasis Order.Backward p width → IfOk result IsTooWide) file.now }

    // In whatever terms the setting's program is written, its paths give this answer, which is a certificate of its claim.
    ensures every_program { WhereGeneral (λ s. (p : Program) → IsProgramOf s p → IfOk result (IsSolvedBy s p width)) file.now }
    ensures certified { WhereGeneral (λ s. (p : Program) → IsProgramOf s p → IfOk result (IsCertifiedAnswer s p)) file.now }

    // The answer can be written, and what is written is read as the same answer.
    ensures writable { WhereGeneral (λ s. IfOk result (IsAnswerTo s)) file.now }

    // Of an auction the cuts are those of the cut run, what is read off its last program is told, and nothing but the mass
    // table may be another one.
    ensures auction_solved { WhereAuction (λ a. IfOk result (IsAuctionSolved a width)) file.now }
    ensures auction_only { WhereAuction (λ a. (other : Answer) → IsAuctionSolved a width other → IfOk result (λ answer. IsSameButMasses answer other)) file.now }

    // Its mechanism is optimal over all mechanisms of the auction, has exactly the odds and payments, and has the value.
    ensures auction_optimal { WhereAuction (λ a. IfOk result (WhereAuctionOptimal (IsAuctionSo a))) file.now }
    ensures auction_certified { WhereAuction (λ a. (p : Program) → IfOk result (IsCertifiedAuction a p)) file.now }

    // Where the run comes to its end there is such an answer, and where its last program has no taken path this is told.
    ensures auction_settled { WhereAuction (λ a. (cuts : List ℕ) (optimum : Optimum) → EndsSettled (auction_cutting a) width cuts optimum → IfOk result ClaimsAuctionOptimal) file.now }
    ensures auction_wide { WhereAuction (λ a. (cuts : List ℕ) (first second : Wide) → EndsWide (auction_cutting a) width cuts first second → IfOk result (λ answer. answer ≡ Answer.TooWide cuts first (Some second))) file.now }
    ensures auction_writable { WhereAuction (λ a. IfOk result (IsAuctionAnswer a)) file.now }
{
    match file {
        SettingFile::General(setting) => solve_general(alloc, setting, width),
        SettingFile::Auction(auction) => solve_by_cuts(alloc, auction, width),
        SettingFile::Bidders(_) => unreachable!(),
    }
}
