//! What a pivot reads of the rows as they were before it.
ghost use Rattle.std.specs.Prelude.{◌≡◌, ◌≢◌, ◌+◌, ◌<◌, length, unsigned_abs};
ghost use Rattle.md_math.specs.Lists.{number_at};
ghost use Rattle.md_dict.specs.declared.rows.Rows.{Rows};
ghost use Rattle.md_dict.specs.RowStep.{AreOldRows, IsCombinationOf, stays_in};

use crate::step::{Step, basic_number};
use md_dict_rows::Combination;

// What a pivot reads of the rows as they were: their denominators and sizes, the numbers of the pivot row, each row's number at the place of the pivot, and a row of zeros.
#[derive(Clone, Copy)]
pub struct OldRows<'a> {
    pub dens: &'a [i64],
    pub sizes: &'a [i64],
    pub pivot_row: &'a [i64],
    pub factors: &'a [i64],
    pub zeros: &'a [i64],
}

impl<'a> OldRows<'a> {
    // The size of a row's greatest number.
    pub fn size(&self, row: usize) -> u64
        requires { row < length self.now.sizes.now }
        ensures { result ≡ unsigned_abs (number_at self.now.sizes.now row) }
    {
        self.sizes[row].unsigned_abs()
    }
}

// Whether a row stays as it is, by the rows' numbers at the place of the pivot.
pub fn stays(step: &Step, factors: &[i64], row: usize) -> bool
    requires { row < length factors.now }
    ensures { result ≡ stays_in step.now factors.now row }
{
    row != step.row && row != step.rows && factors[row] == 0
}

// What a row other than the pivot row becomes, before it is in least terms.
fn combination(step: &Step, old: &OldRows, row: usize) -> Combination
    requires old { (rows : Rows) × AreOldRows step.now rows old.now }
    requires row { row < step.now.rows + 2 }
    requires other { row ≢ step.now.row }
    ensures { (rows : Rows) → AreOldRows step.now rows old.now → IsCombinationOf step.now rows row result }
{
    let den = old.dens[row];
    let leaving = basic_number(
        step.rows,
        step.columns,
        i128::from(den),
        step.row,
        step.leaving,
        row,
    );
    Combination {
        place: step.place,
        multiplier: old.factors[step.row],
        factor: old.factors[row],
        den,
        pivot_den: old.dens[step.row],
        leaving: leaving as i64,
    }
}

// The same by small numbers.
pub fn lowest_combination(step: &Step, old: &OldRows, row: usize) -> Combination
    requires old { (rows : Rows) × AreOldRows step.now rows old.now }
    requires row { row < step.now.rows + 2 }
    requires other { row ≢ step.now.row }
    ensures { (rows : Rows) → AreOldRows step.now rows old.now → IsCombinationOf step.now rows row result }
{
    combination(step, old, row).lowered(old.size(row), old.size(step.row))
}
