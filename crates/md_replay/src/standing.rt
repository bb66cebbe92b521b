//! One basis: which pivots can be carried out there, which is the next one, and what is told of it.
ghost use Rattle.std.specs.Prelude.{◌≡◌, ◌++◌, ◌∷◌, [], ◌+◌, ◌<◌, ◌↔◌, ℕ, List, length, pos, ◌<ℤ◌, IsTrue, OnOk};
ghost use Rattle.md_lp.specs.Program.{Program};
ghost use Rattle.md_lp.specs.declared.pivot.Pivot.{Pivot};
ghost use Rattle.md_dict.specs.Condensed.{Holds, basic_at, entry_at};
ghost use Rattle.md_dict.specs.FirstTable.{first_entry};
ghost use Rattle.md_simplex.specs.declared.order.Order.{Order};
ghost use Rattle.md_simplex.specs.declared.step.Step.{Step};
ghost use Rattle.md_simplex.specs.Rules.{HasNext, IsNext};
ghost use Rattle.md_replay.specs.Replay.{AreFollowed, IsFollowed};
ghost use Rattle.md_replay.specs.Standing.{CanPivot, IsAt, TellsMore};

use crate::outcome::{Followed, Replay};
use md_dict::Dict;
use md_lp::Pivot;
use md_num::NoMemory;
use md_simplex::{Order, Step, next};

// Whether a number is positive.
fn is_positive(number: i128) -> bool
    ensures { IsTrue result ↔ (pos 0 <ℤ number) }
{
    number > 0
}

/// Whether a pivot can be carried out on a dictionary.
pub(crate) fn can_pivot(dict: &Dict, pivot: Pivot) -> bool
    ensures { IsTrue result ↔ CanPivot dict.now pivot }
{
    if pivot.row >= dict.rows() {
        return false;
    }
    pivot.column < dict.columns() && is_positive(dict.entry(pivot.row, pivot.column))
}

// Whether a pivot is the next one by the rules of an order.
fn is_next(dict: &Dict, order: Order, pivot: Pivot) -> bool
    ensures next { IsTrue result → IsNext order dict.now.rows dict.now.columns (entry_at dict.now) (Step.Pivot pivot) }
    ensures only { (p : Program) → Holds p dict.now → HasNext order dict.now.rows dict.now.columns (first_entry p) (basic_at dict.now) (Step.Pivot pivot) → IsTrue result }
{
    match next(dict, order) {
        Step::Pivot(found) => found == pivot,
        _ => false,
    }
}

// How many of the pivots follow the rules of an order, where this one, of the number, is carried out too.
fn followed_by(dict: &Dict, order: Order, pivot: Pivot, number: u64, followed: u64) -> u64
    requires { followed < number }
    ensures { (p : Program) (width : ℕ) (carried : List Pivot) → IsAt p width carried dict.now → number ≡ length carried + 1 → IsFollowed order p carried followed → IsFollowed order p (carried ++ pivot ∷ []) result }
{
    if followed + 1 == number && is_next(dict, order, pivot) {
        number
    } else {
        followed
    }
}

/// How many of the pivots follow the rules of each order, where this one, of the number, is carried out too.
pub(crate) fn followed_with(dict: &Dict, pivot: Pivot, number: u64, followed: Followed) -> Followed
    requires forward { followed.forward < number }
    requires backward { followed.backward < number }
    ensures { (p : Program) (width : ℕ) (carried : List Pivot) → IsAt p width carried dict.now → number ≡ length carried + 1 → AreFollowed p carried followed → AreFollowed p (carried ++ pivot ∷ []) result }
{
    Followed {
        forward: followed_by(dict, Order::Forward, pivot, number, followed.forward),
        backward: followed_by(dict, Order::Backward, pivot, number, followed.backward),
    }
}

/// Tells of the basis of a dictionary.
pub(crate) fn tell(dict: &Dict, told: &mut Replay) -> Result<(), NoMemory>
    ensures { OnOk result (TellsMore dict.now told.old told.new) }
{
    told.dens.push(dict.den())?;
    told.greatest.push(dict.greatest())?;
    Ok(())
}
