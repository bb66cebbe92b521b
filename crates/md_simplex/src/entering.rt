//! The column that enters a basis.
ghost use Rattle.std.specs.Prelude.{◌≡◌, ◌<◌, ◌↔◌, IsTrue, MatchOption};
ghost use Rattle.md_dict.specs.Condensed.{entry_at};
ghost use Rattle.md_simplex.specs.Rules.{IsFaceColumn, IsFirstIn, IsMainColumn};
ghost use Rattle.md_simplex.specs.Columns.{HasNoColumn, tried_at};

use crate::order::Order;
use crate::signs::{Sign, entry_sign};
use md_dict::Dict;

// The column that is tried at a place of the order.
fn column_at(order: Order, columns: u32, place: u32) -> u32
    requires { place < columns }
    ensures value { result ≡ tried_at order columns place }
    ensures range { result < columns }
{
    match order {
        Order::Forward => place,
        Order::Backward => columns - 1 - place,
    }
}

// Whether the face row has a negative entry at a column.
fn is_face_column(dict: &Dict, column: u32) -> bool
    requires { column < dict.now.columns }
    ensures { IsTrue result ↔ IsFaceColumn dict.now.rows (entry_at dict.now) column }
{
    matches!(entry_sign(dict, dict.rows(), column), Sign::Negative)
}

// Whether the face row has 0 at a column, and the main row a negative entry.
fn is_main_column(dict: &Dict, column: u32) -> bool
    requires { column < dict.now.columns }
    ensures { IsTrue result ↔ IsMainColumn dict.now.rows (entry_at dict.now) column }
{
    let rows = dict.rows();
    matches!(entry_sign(dict, rows, column), Sign::Zero)
        && matches!(entry_sign(dict, rows + 1, column), Sign::Negative)
}

/// The first column in the order at which the face row has a negative entry.
pub fn face_column(dict: &Dict, order: Order) -> Option<u32>
    ensures { MatchOption result
        (HasNoColumn dict.now.columns (IsFaceColumn dict.now.rows (entry_at dict.now)))
        (IsFirstIn order dict.now.columns (IsFaceColumn dict.now.rows (entry_at dict.now))) }
{
    for place in 0..dict.columns() {
        let column = column_at(order, dict.columns(), place);
        if is_face_column(dict, column) {
            return Some(column);
        }
    }
    None
}

/// The first column in the order at which the face row has 0 and the main row a negative entry.
pub fn main_column(dict: &Dict, order: Order) -> Option<u32>
    ensures { MatchOption result
        (HasNoColumn dict.now.columns (IsMainColumn dict.now.rows (entry_at dict.now)))
        (IsFirstIn order dict.now.columns (IsMainColumn dict.now.rows (entry_at dict.now))) }
{
    for place in 0..dict.columns() {
        let column = column_at(order, dict.columns(), place);
        if is_main_column(dict, column) {
            return Some(column);
        }
    }
    None
}
