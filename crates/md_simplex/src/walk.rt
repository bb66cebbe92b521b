//! A walk along the path of one order.
ghost use Rattle.std.specs.Prelude.{IfErr, IfOk};
ghost use Rattle.md_dict.specs.Start.{IsStart};
ghost use Rattle.md_simplex.specs.declared.order.Order.{Order};
ghost use Rattle.md_simplex.specs.Runs.{IsLeftIn};
ghost use Rattle.md_simplex.specs.Walk.{IsWalked};

use crate::order::Order;
use crate::rules::next;
use crate::step::Step;
use crate::walk_error::WalkError;
use md_dict::{Dict, StartRefusal};
use md_lp::{Lp, Path, Wide};
use md_num::Width;
use std::alloc::Global;

/// A path walked to its end: its pivots, the dictionary of its last basis, and how it ends.
#[derive(Drop)]
pub struct Walked {
    pub path: Path,
    pub dict: Dict,
    pub step: Step,
}

// The dictionary of the first basis.
fn start(alloc: Global, lp: &Lp, width: Width) -> Result<Dict, WalkError>
    ensures ok { IfOk result (IsStart lp.now width) }
    ensures left { (order : Order) → IfErr result (IsLeftIn order lp.now width) }
{
    match Dict::start(alloc, lp, width) {
        Ok(dict) => Ok(dict),
        Err(StartRefusal::TooWide(entry)) => Err(WalkError::TooWide(Wide {
            path: Path::new(alloc),
            entry,
        })),
        Err(StartRefusal::Memory) => Err(WalkError::Memory),
    }
}

/// Walks from the first basis to the end of the path, or to the first basis that is too wide.
pub fn walk(alloc: Global, lp: &Lp, width: Width, order: Order) -> Result<Walked, WalkError>
    ensures ok { IfOk result (IsWalked order lp.now width) }
    ensures left { IfErr result (IsLeftIn order lp.now width) }
{
    let mut dict = start(alloc, lp, width)?;
    let mut path = Path::new(alloc);
    let mut step = next(&dict, order);
    while let Step::Pivot(pivot) = step {
        path.push(pivot)?;
        if let Err(refusal) = dict.pivot(pivot.row, pivot.column) {
            return Err(WalkError::TooWide(Wide {
                path,
                entry: refusal.entry,
            }));
        }
        step = next(&dict, order);
    }
    Ok(Walked { path, dict, step })
}
