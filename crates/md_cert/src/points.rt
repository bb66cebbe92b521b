//! The rows of a program at a point, and the first that it breaks.
ghost use Rattle.std.specs.Prelude.{◌<◌, MatchOption};
ghost use Rattle.md_math.specs.Lists.{number_at};
ghost use Rattle.md_lp.specs.Program.{row_count};
ghost use Rattle.md_lp.specs.Point.{MeetsRow};
ghost use Rattle.md_cert.specs.Fault.{BreaksAt, BreaksRow, MeetsRows};
ghost use Rattle.md_cert.specs.Fitting.{FitsColumns, IsDenominator};

use crate::signs::keeps;
use md_lp::Lp;
use md_num::{Nums, product};

// A row that a point breaks.
#[derive(Clone, Copy)]
pub struct BrokenRow {
    pub row: u32,
    pub left: i128,
    pub right: i128,
}

// A row with both its sides, where the point breaks it.
pub fn broken_at(lp: &Lp, den: i128, point: &Nums, row: u32) -> Option<BrokenRow>
    requires denominator { IsDenominator den }
    requires point { FitsColumns lp.now point.now }
    requires row { row < row_count lp.now }
    ensures { MatchOption result (MeetsRow lp.now den (number_at point.now) row) (BreaksAt lp.now den (number_at point.now) row) }
{
    let left = lp.row_sum(row, point);
    let right = product(den, lp.right(row));
    if keeps(lp.kind(row), left, right) {
        None
    } else {
        Some(BrokenRow { row, left, right })
    }
}

// The first row that the point breaks.
pub fn broken_row(lp: &Lp, den: i128, point: &Nums) -> Option<BrokenRow>
    requires denominator { IsDenominator den }
    requires point { FitsColumns lp.now point.now }
    ensures { MatchOption result (MeetsRows lp.now den (number_at point.now)) (λ broken. BreaksRow lp.now den (number_at point.now) broken.row broken.left broken.right) }
{
    for row in 0..lp.rows() {
        if let Some(broken) = broken_at(lp, den, point, row) {
            return Some(broken);
        }
    }
    None
}
