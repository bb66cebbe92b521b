//! The rules by which one basis follows another.
ghost use Rattle.std.specs.Prelude.{◌≡◌, ◌<◌, ◌↔◌, IsTrue};
ghost use Rattle.md_lp.specs.Program.{Program};
ghost use Rattle.md_dict.specs.Condensed.{Holds, basic_at, entry_at};
ghost use Rattle.md_dict.specs.FirstTable.{first_entry};
ghost use Rattle.md_simplex.specs.declared.order.Order.{Order};
ghost use Rattle.md_simplex.specs.declared.step.Step.{Step};
ghost use Rattle.md_simplex.specs.Rules.{HasNext, IsEntering, IsNext, IsRightNegative};

use crate::entering::{face_column, main_column};
use crate::leaving::leaving_row;
use crate::order::Order;
use crate::signs::{Sign, entry_sign};
use crate::step::Step;
use md_dict::Dict;
use md_lp::Pivot;

// What the rules say where the column enters.
fn step_at(dict: &Dict, column: u32) -> Step
    requires { column < dict.now.columns }
    ensures { (order : Order) → IsEntering order dict.now.rows dict.now.columns (entry_at dict.now) column → IsNext order dict.now.rows dict.now.columns (entry_at dict.now) result }
{
    match leaving_row(dict, column) {
        Some(row) => Step::Pivot(Pivot { row, column }),
        None => Step::Unbounded(column),
    }
}

// Whether the right side of the face row is negative.
fn is_right_negative(dict: &Dict) -> bool
    ensures { IsTrue result ↔ IsRightNegative dict.now.rows dict.now.columns (entry_at dict.now) }
{
    matches!(
        entry_sign(dict, dict.rows(), dict.columns() + dict.rows()),
        Sign::Negative
    )
}

// What the rules say of a dictionary.
fn step_of(dict: &Dict, order: Order) -> Step
    ensures { IsNext order dict.now.rows dict.now.columns (entry_at dict.now) result }
{
    if let Some(column) = face_column(dict, order) {
        return step_at(dict, column);
    }
    if is_right_negative(dict) {
        return Step::Infeasible;
    }
    if let Some(column) = main_column(dict, order) {
        return step_at(dict, column);
    }
    Step::Optimal
}

/// What the rules say of a dictionary: the next pivot, or how the path ends.
/// The first column in the order enters, in the face row before the main row, and the row leaves whose list is lexicographically least.
pub fn next(dict: &Dict, order: Order) -> Step
    ensures next { IsNext order dict.now.rows dict.now.columns (entry_at dict.now) result }

    // The rules say one thing of a basis.
    ensures only { (p : Program) (step : Step) → Holds p dict.now → HasNext order dict.now.rows dict.now.columns (first_entry p) (basic_at dict.now) step → step ≡ result }
{
    step_of(dict, order)
}
