//! One turn of a cut run.
ghost use Rattle.std.specs.Prelude.{IfErr, IfOk};
ghost use Rattle.md_lp.specs.Cuts.{AreCuts, HasSingles};
ghost use Rattle.md_cut_runs.specs.Cutting.{IsCutting};
ghost use Rattle.md_cut_runs.specs.Turns.{IsFound, IsNotFound, IsTurn};

use crate::{CutProgram, Optimum, Worst};
use md_cert::Certificate;
use md_lp::{Sets, Wide};
use md_num::{NoMemory, Width};
use md_simplex::{End, SimplexError, run};
use std::alloc::Global;

/// What comes after some cuts.
#[derive(Drop)]
pub(crate) enum Turn<T> {
    /// One more cut.
    Adds(u32),
    /// Nothing: no set is over at the point of the program, as the table shows.
    Ends { optimum: Optimum, table: T },
    /// Nothing: each path of the program has a basis that is too wide.
    TooWide { first: Wide, second: Wide },
}

/// Solves the program of the cuts, and asks for the worst set at its point.
pub(crate) fn next_turn<C: CutProgram>(
    alloc: Global,
    problem: &C,
    cuts: &Sets,
    width: Width,
) -> Result<Turn<C::Table>, NoMemory>
    requires cuts { AreCuts (C.cutting problem.now).places cuts.now }
    requires singles { HasSingles (C.cutting problem.now).places cuts.now }
    ensures { IfOk result (IsTurn (C.cutting problem.now) (C.shows problem.now) width cuts.now) }
{
    match found(alloc, problem, cuts, width) {
        Ok(optimum) => match problem.worst(alloc, optimum.den, &optimum.point)? {
            Worst::Table(table) => Ok(Turn::Ends { optimum, table }),
            Worst::Violated(set) => Ok(Turn::Adds(set)),
        },
        Err(SimplexError::TooWide { first, second }) => Ok(Turn::TooWide { first, second }),
        Err(SimplexError::Memory) => Err(NoMemory),
    }
}

// The greatest point of the program of the cuts. The program is let go before its point is looked at.
fn found<C: CutProgram>(
    alloc: Global,
    problem: &C,
    cuts: &Sets,
    width: Width,
) -> Result<Optimum, SimplexError>
    requires cuts { AreCuts (C.cutting problem.now).places cuts.now }
    requires singles { HasSingles (C.cutting problem.now).places cuts.now }
    ensures found { IfOk result (IsFound (C.cutting problem.now) width cuts.now) }
    ensures left { IfErr result (IsNotFound (C.cutting problem.now) width cuts.now) }
    ensures cutting { IsCutting (C.cutting problem.now) }
{
    let _cutting = problem.places();
    let Ok(lp) = problem.program(alloc, cuts) else {
        return Err(SimplexError::Memory);
    };
    let _range = width.limit();
    let End {
        path: _,
        certificate,
    } = run(alloc, &lp, width)?;
    let Certificate::Optimal { den, point, bound } = certificate else {
        unreachable!()
    };
    Ok(Optimum { den, point, bound })
}
