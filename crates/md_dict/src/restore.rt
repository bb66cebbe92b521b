//! Old rows, made again of the new ones that stand in their places.
ghost use Rattle.std.specs.Prelude.{◌≡◌, ◌≢◌, ℕ, ◌+◌, ◌^◌, ◌<◌, ◌≤◌, ◌-ℤ◌, ◌*ℤ◌, ◌<ℤ◌, ℤ, pos, length, unsigned_abs};
ghost use Rattle.md_math.specs.Lists.{number_at};
ghost use Rattle.md_math.specs.Sizes.{AllWithin, IsWithin};
ghost use Rattle.md_dict.specs.declared.rows.Rows.{Rows};
ghost use Rattle.md_dict.specs.Step.{IsTable, number_in};
ghost use Rattle.md_dict.specs.Rows.{own_number};
ghost use Rattle.md_dict.specs.RowStep.{AreOldFrom, AreOldRows, AreOldTimes, AreRestorable, CanBeRestored, CanBeTurnedBack};
ghost use Rattle.md_dict.specs.Fill.{Leaves};

use crate::copies::put_row;
use crate::old_rows::{OldRows, stays};
use crate::step::Step;
use md_num::{exact_quotient, product};

// The number that another one was made of: the divisor times that one is the pivot times it, less what was taken from it.
fn undone(divisor: i128, number: i64, pivot: i64, factor: i64, taken: i64) -> i64
    requires own { (own : ℤ) × IsWithin (2 ^ 62) own × (divisor *ℤ number ≡ pivot *ℤ own -ℤ factor *ℤ taken) }
    requires divisor { unsigned_abs divisor < 2 ^ 126 }
    requires number { IsWithin (2 ^ 62) number }
    requires pivot { IsWithin (2 ^ 62) pivot }
    requires positive { pos 0 <ℤ pivot }
    requires factor { IsWithin (2 ^ 62) factor }
    requires taken { IsWithin (2 ^ 62) taken }
    ensures { (own : ℤ) → divisor *ℤ number ≡ pivot *ℤ own -ℤ factor *ℤ taken → result ≡ own }
{
    let changed = product(divisor, i128::from(number));
    let taken_off = product(i128::from(factor), i128::from(taken));
    exact_quotient(changed + taken_off, i128::from(pivot)) as i64
}

// The number that stood at a place before a row was changed.
fn old_number_of(
    step: &Step,
    old: &OldRows,
    divisor: i128,
    row: usize,
    place: usize,
    number: i64,
) -> i64
    requires old { (rows : Rows) × AreOldRows step.now rows old.now × (place ≢ step.now.place → divisor *ℤ number ≡ own_number rows step.now.row step.now.place *ℤ own_number rows row place -ℤ own_number rows row step.now.place *ℤ own_number rows step.now.row place) }
    requires row { row < step.now.rows + 2 }
    requires place { place < step.now.columns + 1 }
    requires divisor { unsigned_abs divisor < 2 ^ 126 }
    requires number { IsWithin (2 ^ 62) number }
    ensures { (rows : Rows) → AreOldRows step.now rows old.now → (place ≢ step.now.place → divisor *ℤ number ≡ own_number rows step.now.row step.now.place *ℤ own_number rows row place -ℤ own_number rows row step.now.place *ℤ own_number rows step.now.row place) → result ≡ own_number rows row place }
{
    if place == step.place {
        old.factors[row]
    } else {
        undone(
            divisor,
            number,
            old.factors[step.row],
            old.factors[row],
            old.pivot_row[place],
        )
    }
}

// Turns the numbers of a row that was changed back.
fn turn_numbers_back(step: &Step, old: &OldRows, divisor: i128, row: usize, own: &mut [i64])
    requires old { (rows : Rows) × AreOldRows step.now rows old.now × AreOldTimes step.now rows row divisor (number_at own.old) }
    requires row { row < step.now.rows + 2 }
    requires divisor { unsigned_abs divisor < 2 ^ 126 }
    requires length { length own.old ≡ step.now.columns + 1 }
    requires size { AllWithin step.now.limit own.old }
    ensures back { (rows : Rows) → AreOldRows step.now rows old.now → AreOldTimes step.now rows row divisor (number_at own.old) → (s : ℕ) → s < step.now.columns + 1 → number_at own.new s ≡ own_number rows row s }
    ensures length { length own.new ≡ step.now.columns + 1 }
    ensures size { AllWithin step.now.limit own.new }
{
    for place in 0..own.len() {
        own[place] = old_number_of(step, old, divisor, row, place, own[place]);
    }
}

// Turns a row that was changed back.
fn turn_back(step: &Step, old: &OldRows, den: i64, row: usize, numbers: &mut [i64])
    requires old { (rows : Rows) × AreOldRows step.now rows old.now × CanBeTurnedBack step.now rows row den (number_in step.now numbers.old row) }
    requires positive { pos 0 <ℤ den }
    requires den { IsWithin (2 ^ 62) den }
    requires row { row < step.now.rows + 2 }
    requires table { IsTable step.now numbers.old }
    ensures back { (rows : Rows) → AreOldRows step.now rows old.now → CanBeTurnedBack step.now rows row den (number_in step.now numbers.old row) → (s : ℕ) → s < step.now.columns + 1 → number_in step.now numbers.new row s ≡ own_number rows row s }
    ensures leaves { Leaves step.now row numbers.old numbers.new }
    ensures table { IsTable step.now numbers.new }
{
    let pivot = i128::from(old.factors[step.row]);
    let whole = product(pivot, i128::from(old.dens[row]));
    let divisor = exact_quotient(whole, i128::from(den));
    let start = row * (step.columns + 1);
    let end = start + step.columns + 1;
    turn_numbers_back(step, old, divisor, row, &mut numbers[start..end]);
}

// Gives a row its old numbers back.
fn restore_row(step: &Step, old: &OldRows, den: i64, row: usize, numbers: &mut [i64])
    requires old { (rows : Rows) × AreOldRows step.now rows old.now × CanBeRestored step.now rows old.now.factors.now row den (number_in step.now numbers.old row) }
    requires row { row < step.now.rows + 2 }
    requires table { IsTable step.now numbers.old }
    ensures back { (rows : Rows) → AreOldRows step.now rows old.now → CanBeRestored step.now rows old.now.factors.now row den (number_in step.now numbers.old row) → (s : ℕ) → s < step.now.columns + 1 → number_in step.now numbers.new row s ≡ own_number rows row s }
    ensures leaves { Leaves step.now row numbers.old numbers.new }
    ensures table { IsTable step.now numbers.new }
{
    if stays(step, old.factors, row) {
        return;
    }
    if row == step.row {
        put_row(step, row, old.pivot_row, numbers);
    } else {
        turn_back(step, old, den, row, numbers);
    }
}

// Gives the rows that were written their old numbers back.
pub fn restore_rows(step: &Step, old: &OldRows, dens: &[i64], written: usize, numbers: &mut [i64])
    requires old { (rows : Rows) × AreOldRows step.now rows old.now × AreRestorable step.now rows old.now.factors.now numbers.old dens.now written }
    requires written { written ≤ step.now.rows + 2 }
    requires dens { length dens.now ≡ step.now.rows + 2 }
    requires table { IsTable step.now numbers.old }
    ensures back { (rows : Rows) → AreOldRows step.now rows old.now → AreRestorable step.now rows old.now.factors.now numbers.old dens.now written → AreOldFrom step.now rows numbers.new 0 }
    ensures table { IsTable step.now numbers.new }
{
    for row in 0..written {
        restore_row(step, old, dens[row], row, numbers);
    }
}
