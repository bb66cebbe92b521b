//! New rows, written in the places of the old ones.
ghost use Rattle.std.specs.Prelude.{◌≡◌, ◌≢◌, ℕ, ◌+◌, ◌^◌, ◌<◌, ◌≤◌, ℤ, pos, ◌<ℤ◌, length, IfNone, IfSome, unsigned_abs};
ghost use Rattle.md_math.specs.Divisors.{Divides};
ghost use Rattle.md_dict.specs.Multiples.{IsMultipleOfTwo};
ghost use Rattle.md_dict.specs.declared.rows.Rows.{Rows};
ghost use Rattle.md_dict.specs.Step.{IsTable, number_in};
ghost use Rattle.md_dict.specs.RowStep.{AreOldFrom, AreOldRows, AreParts, CanBeTurnedBack, IsDoneRow, IsDraft, IsMadeRow, IsOwnRow, IsRowStep, kept_in};
ghost use Rattle.md_dict.specs.Fill.{AreFilledBy, IsDenOf, IsRowsMultiple, IsWideFor, Leaves};

use crate::copies::{copy_row, put_row};
use crate::multiples::with_multiple;
use crate::old_rows::{OldRows, lowest_combination, stays};
use crate::step::Step;
use md_dict_rows::{LeastRow, Witnesses, exact_den, reduce, row_size};

// What came of writing the rows after a pivot: how many were written before the first one that is too wide by itself, the least common multiple of their denominators, and the last one of these.
#[derive(Clone, Copy)]
pub struct Filled {
    pub written: usize,
    pub den: i128,
    last: i128,
}

impl Filled {
    // The same with one more denominator, which is often the last one again.
    fn with(&self, den: i128) -> Filled
        requires multiple { pos 0 <ℤ self.now.den }
        requires last { Divides self.now.last self.now.den }
        requires den { pos 0 <ℤ den }
        requires room { (x : ℤ) × (unsigned_abs x < 2 ^ 126) × (pos 0 <ℤ x) × Divides self.now.den x × Divides den x }
        ensures multiple { IsMultipleOfTwo self.now.den den result.den }
        ensures size { unsigned_abs result.den < 2 ^ 126 }
        ensures last { Divides result.last result.den }
        ensures written { result.written ≡ self.now.written }
    {
        if den == self.last {
            return *self;
        }
        Filled {
            written: self.written,
            den: with_multiple(self.den, den),
            last: den,
        }
    }
}

// Writes the new numbers of a row that changes, where none is above the limit. Its own numbers stand apart.
fn combine(
    step: &Step,
    old: &OldRows,
    row: usize,
    own: &[i64],
    numbers: &mut [i64],
    witnesses: &mut Witnesses,
) -> Option<LeastRow>
    requires old { (rows : Rows) × AreOldRows step.now rows old.now × IsOwnRow rows row own.now }
    requires row { row < step.now.rows + 2 }
    requires other { row ≢ step.now.row }
    requires table { IsTable step.now numbers.old }
    ensures made { (rows : Rows) → AreOldRows step.now rows old.now → IsOwnRow rows row own.now → IfSome result (λ least. IsMadeRow step.now rows row least (number_in step.now numbers.new row)) }
    ensures back { (rows : Rows) → AreOldRows step.now rows old.now → IsOwnRow rows row own.now → IfSome result (λ least. CanBeTurnedBack step.now rows row least.den (number_in step.now numbers.new row)) }
    ensures wide { (rows : Rows) → AreOldRows step.now rows old.now → IsOwnRow rows row own.now → IfNone result (IsWideFor step.now (kept_in step.now rows)) }
    ensures leaves { Leaves step.now row numbers.old numbers.new }
    ensures table { IsTable step.now numbers.new }
{
    let start = row * (step.columns + 1);
    let end = start + step.columns + 1;
    let fresh = &mut numbers[start..end];
    let combination = lowest_combination(step, old, row);
    reduce(
        &combination,
        own,
        old.pivot_row,
        old.size(row),
        old.size(step.row),
        step.limit as u64,
        old.zeros,
        fresh,
        witnesses,
    )
}

// Writes the new numbers of a row that changes in the place of the old ones, where none is above the limit.
fn write_changed(
    step: &Step,
    old: &OldRows,
    row: usize,
    own: &mut [i64],
    numbers: &mut [i64],
    witnesses: &mut Witnesses,
) -> Option<LeastRow>
    requires old { (rows : Rows) × AreOldRows step.now rows old.now × AreOldFrom step.now rows numbers.old row }
    requires row { row < step.now.rows + 2 }
    requires other { row ≢ step.now.row }
    requires length { length own.old ≡ step.now.columns + 1 }
    requires table { IsTable step.now numbers.old }
    ensures made { (rows : Rows) → AreOldRows step.now rows old.now → AreOldFrom step.now rows numbers.old row → IfSome result (λ least. IsMadeRow step.now rows row least (number_in step.now numbers.new row)) }
    ensures back { (rows : Rows) → AreOldRows step.now rows old.now → AreOldFrom step.now rows numbers.old row → IfSome result (λ least. CanBeTurnedBack step.now rows row least.den (number_in step.now numbers.new row)) }
    ensures wide { (rows : Rows) → AreOldRows step.now rows old.now → AreOldFrom step.now rows numbers.old row → IfNone result (IsWideFor step.now (kept_in step.now rows)) }
    ensures stays { IfNone result ((s : ℕ) → s < step.now.columns + 1 → number_in step.now numbers.new row s ≡ number_in step.now numbers.old row s) }
    ensures leaves { Leaves step.now row numbers.old numbers.new }
    ensures table { IsTable step.now numbers.new }
    ensures length { length own.new ≡ step.now.columns + 1 }
{
    copy_row(step, row, numbers, own);
    let least = combine(step, old, row, own, numbers, witnesses);
    if least.is_none() {
        put_row(step, row, own, numbers);
    }
    least
}

// Writes the new numbers of the pivot row: its own ones, over the pivot, and its old denominator at the place of the pivot.
fn write_pivot_row(step: &Step, old: &OldRows, numbers: &mut [i64]) -> LeastRow
    requires old { (rows : Rows) × AreOldRows step.now rows old.now × AreOldFrom step.now rows numbers.old step.now.row }
    requires table { IsTable step.now numbers.old }
    ensures made { (rows : Rows) → AreOldRows step.now rows old.now → AreOldFrom step.now rows numbers.old step.now.row → IsMadeRow step.now rows step.now.row result (number_in step.now numbers.new step.now.row) }
    ensures leaves { Leaves step.now step.now.row numbers.old numbers.new }
    ensures table { IsTable step.now numbers.new }
{
    numbers[step.row * (step.columns + 1) + step.place] = old.dens[step.row];
    LeastRow {
        den: old.factors[step.row],
        size: row_size(numbers, step.columns + 1, step.row),
    }
}

// Writes the new numbers of a row in the place of the old ones, where it does not stay and none is above the limit, and answers its denominator and size.
fn write_row(
    step: &Step,
    old: &OldRows,
    row: usize,
    own: &mut [i64],
    numbers: &mut [i64],
    witnesses: &mut Witnesses,
) -> Option<LeastRow>
    requires old { (rows : Rows) × AreOldRows step.now rows old.now × AreOldFrom step.now rows numbers.old row }
    requires row { row < step.now.rows + 2 }
    requires length { length own.old ≡ step.now.columns + 1 }
    requires table { IsTable step.now numbers.old }
    ensures done { (rows : Rows) → AreOldRows step.now rows old.now → AreOldFrom step.now rows numbers.old row → IfSome result (IsDoneRow step.now rows old.now.factors.now numbers.new row) }
    ensures wide { (rows : Rows) → AreOldRows step.now rows old.now → AreOldFrom step.now rows numbers.old row → IfNone result (IsWideFor step.now (kept_in step.now rows)) }
    ensures stays { IfNone result ((s : ℕ) → s < step.now.columns + 1 → number_in step.now numbers.new row s ≡ number_in step.now numbers.old row s) }
    ensures leaves { Leaves step.now row numbers.old numbers.new }
    ensures table { IsTable step.now numbers.new }
    ensures length { length own.new ≡ step.now.columns + 1 }
{
    if stays(step, old.factors, row) {
        return Some(LeastRow {
            den: old.dens[row],
            size: old.sizes[row],
        });
    }
    if row == step.row {
        return Some(write_pivot_row(step, old, numbers));
    }
    write_changed(step, old, row, own, numbers, witnesses)
}

// Writes the rows after the pivot in the places of the old ones, with their denominators and sizes, up to the first one that is too wide by itself.
pub fn write_rows(
    step: &Step,
    old: &OldRows,
    own: &mut [i64],
    numbers: &mut [i64],
    dens: &mut [i64],
    sizes: &mut [i64],
    witnesses: &mut Witnesses,
) -> Filled
    requires old { (rows : Rows) × AreOldRows step.now rows old.now × AreOldFrom step.now rows numbers.old 0 }
    requires length { length own.old ≡ step.now.columns + 1 }
    requires room { AreParts step.now numbers.old dens.old sizes.old }
    ensures filled { (rows : Rows) → AreOldRows step.now rows old.now → AreOldFrom step.now rows numbers.old 0 → AreFilledBy step.now rows old.now.factors.now numbers.new dens.new sizes.new result.written result.den }
    ensures size { unsigned_abs result.den < 2 ^ 126 }
    ensures rest { (rows : Rows) → AreOldRows step.now rows old.now → AreOldFrom step.now rows numbers.old 0 → AreOldFrom step.now rows numbers.new result.written }
    ensures wide { (rows : Rows) → AreOldRows step.now rows old.now → AreOldFrom step.now rows numbers.old 0 → result.written < step.now.rows + 2 → IsWideFor step.now (kept_in step.now rows) }
    ensures written { result.written ≤ step.now.rows + 2 }
    ensures last { Divides result.last result.den }
    ensures room { AreParts step.now numbers.new dens.new sizes.new }
    ensures length { length own.new ≡ step.now.columns + 1 }
{
    let mut filled = Filled {
        written: 0,
        den: 1,
        last: 1,
    };
    for row in 0..step.rows + 2 {
        let Some(least) = write_row(step, old, row, own, numbers, witnesses) else {
            return filled;
        };
        filled = filled.with(i128::from(least.den));
        filled.written = row + 1;
        dens[row] = least.den;
        sizes[row] = least.size;
    }
    filled
}

// The denominator of a row after the pivot, however wide the row is.
fn row_den(step: &Step, old: &OldRows, numbers: &[i64], row: usize) -> i128
    requires old { (rows : Rows) × AreOldRows step.now rows old.now × AreOldFrom step.now rows numbers.now row }
    requires row { row < step.now.rows + 2 }
    requires table { IsTable step.now numbers.now }
    ensures { (rows : Rows) → AreOldRows step.now rows old.now → AreOldFrom step.now rows numbers.now row → IsDenOf step.now rows row result }
{
    if stays(step, old.factors, row) {
        return i128::from(old.dens[row]);
    }
    if row == step.row {
        return i128::from(old.factors[row]);
    }
    let start = row * (step.columns + 1);
    let end = start + step.columns + 1;
    let combination = lowest_combination(step, old, row);
    exact_den(&combination, &numbers[start..end], old.pivot_row)
}

// The least common multiple of the denominators of all rows, where some are not written.
pub fn whole_den(step: &Step, old: &OldRows, numbers: &[i64], first: &Filled) -> i128
    requires old { (rows : Rows) × AreOldRows step.now rows old.now × AreOldFrom step.now rows numbers.now first.now.written × IsRowsMultiple step.now rows first.now.written first.now.den }
    requires table { IsTable step.now numbers.now }
    requires written { first.now.written ≤ step.now.rows + 2 }
    requires last { Divides first.now.last first.now.den }
    ensures multiple { (rows : Rows) → AreOldRows step.now rows old.now → AreOldFrom step.now rows numbers.now first.now.written → IsRowsMultiple step.now rows first.now.written first.now.den → IsRowsMultiple step.now rows (step.now.rows + 2) result }
    ensures same { first.now.written ≡ step.now.rows + 2 → result ≡ first.now.den }
{
    let mut filled = *first;
    for row in first.written..step.rows + 2 {
        filled = filled.with(row_den(step, old, numbers, row));
    }
    filled.den
}
