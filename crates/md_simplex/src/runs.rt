//! A run over the paths of a program.
ghost use Rattle.std.specs.Prelude.{◌≡◌, ◌++◌, [], IfErr, IfOk, List, MatchResult};
ghost use Rattle.md_lp.specs.Program.{row_count};
ghost use Rattle.md_lp.specs.declared.pivot.Pivot.{Pivot};
ghost use Rattle.md_lp.specs.declared.wide.Wide.{Wide};
ghost use Rattle.md_cert.specs.Certified.{Certified};
ghost use Rattle.md_cert.specs.Fitting.{Fits};
ghost use Rattle.md_simplex.specs.declared.end.End.{End};
ghost use Rattle.md_simplex.specs.declared.order.Order.{Order};
ghost use Rattle.md_simplex.specs.declared.step.Step.{Step};
ghost use Rattle.md_simplex.specs.Path.{IsSameBasis};
ghost use Rattle.md_simplex.specs.Runs.{BeginsPath, HasPath, IsFirstWideOf, IsLeft, IsLeftIn, IsPathOf, IsRun, IsRunIn, IsTaken, MeetsWideBasis, TellsOf, basis_of};

use crate::end::End;
use crate::order::Order;
use crate::reading::certificate_of;
use crate::simplex_error::SimplexError;
use crate::walk::walk;
use crate::walk_error::WalkError;
use md_lp::{Lp, Path, Wide};
use md_num::Width;
use std::alloc::Global;

// Follows the path of one order to its end.
fn follow(alloc: Global, lp: &Lp, width: Width, order: Order) -> Result<End, WalkError>
    ensures ok { IfOk result (IsRunIn order lp.now width) }
    ensures certified { IfOk result (λ end. Certified lp.now end.certificate) }
    ensures fits { IfOk result (λ end. Fits lp.now end.certificate) }
    ensures left { IfErr result (IsLeftIn order lp.now width) }
{
    let walked = walk(alloc, lp, width, order)?;
    let certificate = certificate_of(alloc, lp, &walked.dict, walked.step)?;
    Ok(End {
        path: walked.path,
        certificate,
    })
}

// Follows the backward path to its end, where the forward one has a wide basis. Where that is the first basis, both paths have it.
fn follow_backward(alloc: Global, lp: &Lp, width: Width, first: Wide) -> Result<End, SimplexError>
    requires { IsFirstWideOf Order.Forward lp.now width first }
    ensures ok { IfOk result (IsRun lp.now width) }
    ensures certified { IfOk result (λ end. Certified lp.now end.certificate) }
    ensures fits { IfOk result (λ end. Fits lp.now end.certificate) }
    ensures left { IfErr result (IsLeft lp.now width) }
{
    if first.path.is_empty() {
        let second = Wide {
            path: Path::new(alloc),
            entry: first.entry,
        };
        return Err(SimplexError::TooWide { first, second });
    }
    match follow(alloc, lp, width, Order::Backward) {
        Ok(end) => Ok(end),
        Err(WalkError::TooWide(second)) => Err(SimplexError::TooWide { first, second }),
        Err(WalkError::Memory) => Err(SimplexError::Memory),
    }
}

// Follows the taken path to its end.
fn follow_taken(alloc: Global, lp: &Lp, width: Width) -> Result<End, SimplexError>
    ensures ok { IfOk result (IsRun lp.now width) }
    ensures certified { IfOk result (λ end. Certified lp.now end.certificate) }
    ensures fits { IfOk result (λ end. Fits lp.now end.certificate) }
    ensures left { IfErr result (IsLeft lp.now width) }
{
    match follow(alloc, lp, width, Order::Forward) {
        Ok(end) => Ok(end),
        Err(WalkError::TooWide(first)) => follow_backward(alloc, lp, width, first),
        Err(WalkError::Memory) => Err(SimplexError::Memory),
    }
}

/// Follows a path of a program from its first basis to its end, and reads off what the last dictionary proves.
/// The forward path is taken where none of its bases is too wide; else the backward path where none of its bases is.
/// Where each of them has a basis that is too wide, the pivots to the first such one and its first wide entry are answered for each.
/// It always ends, and its answer is decided by the program and the width, or by memory that ran out.
pub fn run(alloc: Global, lp: &Lp, width: Width) -> Result<End, SimplexError>
    ensures ok { IfOk result (IsRun lp.now width) }
    ensures certified { IfOk result (λ end. Certified lp.now end.certificate) }
    ensures fits { IfOk result (λ end. Fits lp.now end.certificate) }
    ensures left { IfErr result (IsLeft lp.now width) }

    // Where a basis of each path is wide there is no end. The first one of each is told, and nothing else.
    ensures wide { MeetsWideBasis Order.Forward lp.now width → MeetsWideBasis Order.Backward lp.now width → IfOk result (λ _. ⊥) }
    ensures first_wide { (first second : Wide) → IsFirstWideOf Order.Forward lp.now width first → IsFirstWideOf Order.Backward lp.now width second → IfErr result (TellsOf first second) }

    // Where a path is taken, the whole of it is answered, unless memory ran out.
    ensures taken { (order : Order) (pivots : List Pivot) (step : Step) → IsTaken order lp.now width pivots step → MatchResult result (λ end. end.path ≡ pivots) (λ error. error ≡ SimplexError.Memory) }
    ensures only_end { (other : End) → IsRun lp.now width other → IfOk result (λ end. end ≡ other) }

    // Every program has one path of each order, and no basis stands twice in it.
    ensures ends { (order : Order) → HasPath order lp.now }
    ensures only_path { (order : Order) (first second : List Pivot) (a b : Step) → IsPathOf order lp.now first a → IsPathOf order lp.now second b → (first ≡ second) × (a ≡ b) }
    ensures no_basis_twice { (order : Order) (before between : List Pivot) → BeginsPath order lp.now (before ++ between) → IsSameBasis (row_count lp.now) (basis_of lp.now before) (basis_of lp.now (before ++ between)) → between ≡ [] }
{
    follow_taken(alloc, lp, width)
}
