//! What is fixed at a node, as pairs of a rank and an outcome.
ghost use Rattle.std.specs.Prelude.{◌≡◌, ◌<◌, ◌++◌, length, IfOk, OnOk};
ghost use Rattle.md_determ.specs.Pairs.{ArePairsOf, pairs_at};

use md_determ_branching::Fixed;
use md_lp::{Path, Pivot};
use md_num::NoMemory;
use std::alloc::Global;

/// The pairs of a rank and the outcome that is fixed there, by rank ascending.
pub(crate) fn pairs_of(alloc: Global, fixed: &Fixed) -> Result<Path, NoMemory>
    ensures { IfOk result (ArePairsOf fixed.now) }
{
    let mut pairs = Path::new(alloc);
    for rank in 0..fixed.ranks() {
        push_pair(fixed, rank, &mut pairs)?;
    }
    Ok(pairs)
}

// Appends the pair of a rank, if an outcome is fixed there.
fn push_pair(fixed: &Fixed, rank: u32, pairs: &mut Path) -> Result<(), NoMemory>
    requires { rank < length fixed.now }
    ensures { OnOk result (pairs.new ≡ pairs.old ++ pairs_at fixed.now rank) }
{
    match fixed.outcome(rank) {
        Some(outcome) => pairs.push(Pivot {
            row: rank,
            column: outcome,
        }),
        None => Ok(()),
    }
}
