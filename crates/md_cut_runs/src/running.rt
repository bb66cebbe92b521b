//! Cut runs.
ghost use Rattle.std.specs.Prelude.{◌≡◌, ◌<◌, ◌^◌, List, ℕ, IfErr, IfOk, MatchResult, length};
ghost use Rattle.md_math.specs.Lists.{number_at};
ghost use Rattle.md_lp.specs.declared.wide.Wide.{Wide};
ghost use Rattle.md_lp.specs.Cuts.{AreCuts};
ghost use Rattle.md_cut_runs.specs.declared.optimum.Optimum.{Optimum};
ghost use Rattle.md_cut_runs.specs.CutRuns.{EndsSettled, EndsWide, HasSmallEntries, IsLeftAt, IsShownBy, TellsWide, WhereWide};

use crate::turn::{Turn, next_turn};
use crate::{CutEnd, CutProgram, CutsError};
use md_lp::singles;
use md_num::Width;
use std::alloc::Global;

/// Solves the program of the sets of one place each, then that with the worst set at its point as one more cut, and so on,
/// until no set is over at the point, or no path of the program is within the width. One program is held at a time.
pub fn cut_run<C: CutProgram>(
    alloc: Global,
    problem: &C,
    width: Width,
) -> Result<CutEnd<C::Table>, CutsError>
    ensures ends { IfOk result (λ end. EndsSettled (C.cutting problem.now) width end.cuts end.optimum) }
    ensures shows { IfOk result (λ end. C.shows problem.now end.optimum.den (number_at end.optimum.point) end.table) }
    ensures shown { IfOk result (λ end. IsShownBy (C.cutting problem.now) end.cuts end.optimum) }
    ensures left { IfErr result (IsLeftAt (C.cutting problem.now) width) }
    ensures small { IfErr result HasSmallEntries }

    // There is one run, and it has one end: an answer with these cuts and this optimum, or these wide bases.
    ensures settled { (cuts : List ℕ) (optimum : Optimum) → EndsSettled (C.cutting problem.now) width cuts optimum → MatchResult result (λ end. (end.cuts ≡ cuts) × (end.optimum ≡ optimum)) (λ error. error ≡ CutsError.Memory) }
    ensures wide { (cuts : List ℕ) (first second : Wide) → EndsWide (C.cutting problem.now) width cuts first second → MatchResult result (λ _. ⊥) (TellsWide cuts first second) }

    // No cut comes twice, so that there are fewer than there are sets.
    ensures distinct { MatchResult result (λ end. AreCuts (C.cutting problem.now).places end.cuts) (WhereWide (AreCuts (C.cutting problem.now).places)) }
    ensures few { MatchResult result (λ end. length end.cuts < 2 ^ (C.cutting problem.now).places) (WhereWide (λ cuts. length cuts < 2 ^ (C.cutting problem.now).places)) }
{
    let mut cuts = singles(alloc, problem.places())?;
    loop {
        match next_turn(alloc, problem, &cuts, width)? {
            Turn::Adds(set) => cuts.push(set)?,
            Turn::Ends { optimum, table } => {
                return Ok(CutEnd {
                    cuts,
                    optimum,
                    table,
                });
            }
            Turn::TooWide { first, second } => {
                return Err(CutsError::TooWide {
                    cuts,
                    first,
                    second,
                });
            }
        }
    }
}
