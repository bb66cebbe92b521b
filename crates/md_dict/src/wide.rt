//! The first entry that is too wide after a pivot.
ghost use Rattle.std.specs.Prelude.{◌≡◌, ℕ, List, ◌+◌, ◌^◌, ◌<◌, ◌≤◌, ◌↔◌, pos, ◌*ℤ◌, ◌<ℤ◌, int_div, IsTrue, MatchOption, unsigned_abs};
ghost use Rattle.md_math.specs.Sizes.{IsWithin};
ghost use Rattle.md_math.specs.Divisors.{Divides};
ghost use Rattle.md_math.specs.FirstFailure.{HoldsBelow, IsFirstFailure};
ghost use Rattle.md_dict.specs.RowStep.{IsRowStep, kept_in};
ghost use Rattle.md_dict.specs.Step.{IsSeated, IsStepDivisor, seat_after, raw_at, new_entry};
ghost use Rattle.md_dict.specs.Wide.{IsFirstWide, IsNarrow};

use crate::rows::Rows;
use crate::step::{Step, basic_number};
use md_dict_division::{Divider, is_within};
use md_lp::Entry;
use md_num::{exact_quotient, product};

// Where a column stands after the pivot.
fn seat_after(step: &Step, seat: &[u32], column: usize) -> usize
    requires row { step.now.row < step.now.rows }
    requires place { step.now.place < step.now.columns }
    requires small { step.now.columns + step.now.rows < 2 ^ 32 }
    requires seated { IsSeated step.now seat.now }
    requires column { column < step.now.columns + step.now.rows }
    ensures value { result ≡ seat_after step.now seat.now column }
    ensures range { result < step.now.columns + step.now.rows }
{
    if column == step.entering {
        step.columns + step.row
    } else if column == step.leaving {
        step.place
    } else {
        seat[column] as usize
    }
}

// The number at a column after the pivot, over the denominator times the pivot.
fn raw_at(step: &Step, rows: &Rows, seat: &[u32], row: usize, column: usize) -> i128
    requires step { IsRowStep step.now rows.now }
    requires seated { IsSeated step.now seat.now }
    requires row { row < step.now.rows + 2 }
    requires column { column < step.now.columns + step.now.rows + 1 }
    ensures value { result ≡ raw_at step.now (kept_in step.now rows.now) seat.now row column }
    ensures size { unsigned_abs result < 2 ^ 126 }
{
    if column >= step.columns + step.rows {
        return step.raw_number(rows, row, step.columns);
    }
    let place = seat_after(step, seat, column);
    if place < step.columns {
        step.raw_number(rows, row, place)
    } else {
        let den = product(step.den, step.pivot);
        basic_number(
            step.rows,
            step.columns,
            den,
            place - step.columns,
            column,
            row,
        )
    }
}

// The entry at a column after the pivot.
fn new_entry(
    step: &Step,
    divider: &Divider,
    rows: &Rows,
    seat: &[u32],
    row: usize,
    column: usize,
) -> i128
    requires step { IsRowStep step.now rows.now }
    requires divider { divider.now.value ≡ step.now.divisor }
    requires seated { IsSeated step.now seat.now }
    requires divisor { IsStepDivisor step.now (kept_in step.now rows.now) (step.now.rows + 2) step.now.divisor }
    requires divisor_size { unsigned_abs step.now.divisor < 2 ^ 126 }
    requires row { row < step.now.rows + 2 }
    requires column { column < step.now.columns + step.now.rows + 1 }
    ensures { result ≡ new_entry step.now (kept_in step.now rows.now) seat.now step.now.divisor row column }
{
    divider.quotient(raw_at(step, rows, seat, row, column))
}

// The denominator after the pivot.
fn new_den(step: &Step) -> i128
    requires den { IsWithin (2 ^ 62) step.now.den }
    requires pivot { IsWithin (2 ^ 62) step.now.pivot }
    requires positive { pos 0 <ℤ step.now.divisor }
    requires divisor_size { unsigned_abs step.now.divisor < 2 ^ 126 }
    requires exact { Divides step.now.divisor (step.now.den *ℤ step.now.pivot) }
    ensures { result ≡ int_div (step.now.den *ℤ step.now.pivot) step.now.divisor }
{
    exact_quotient(product(step.den, step.pivot), step.divisor)
}

// The first column of a row whose entry after the pivot is above the limit.
fn wide_in_row(
    step: &Step,
    divider: &Divider,
    rows: &Rows,
    seat: &[u32],
    row: usize,
) -> Option<usize>
    requires step { IsRowStep step.now rows.now }
    requires divider { divider.now.value ≡ step.now.divisor }
    requires seated { IsSeated step.now seat.now }
    requires divisor { IsStepDivisor step.now (kept_in step.now rows.now) (step.now.rows + 2) step.now.divisor }
    requires divisor_size { unsigned_abs step.now.divisor < 2 ^ 126 }
    requires row { row < step.now.rows + 2 }
    ensures { MatchOption result
        (HoldsBelow (step.now.columns + step.now.rows + 1) (λ j. IsWithin step.now.limit (new_entry step.now (kept_in step.now rows.now) seat.now step.now.divisor row j)))
        (IsFirstFailure (step.now.columns + step.now.rows + 1) (λ j. IsWithin step.now.limit (new_entry step.now (kept_in step.now rows.now) seat.now step.now.divisor row j))) }
{
    for column in 0..step.columns + step.rows + 1 {
        if !is_within(
            new_entry(step, divider, rows, seat, row, column),
            step.limit,
        ) {
            return Some(column);
        }
    }
    None
}

// The first entry after the pivot that is above the limit, by row, then by column. There is one.
pub fn first_wide(step: &Step, rows: &Rows, seat: &[u32]) -> Entry
    requires step { IsRowStep step.now rows.now }
    requires seated { IsSeated step.now seat.now }
    requires divisor { IsStepDivisor step.now (kept_in step.now rows.now) (step.now.rows + 2) step.now.divisor }
    requires divisor_size { unsigned_abs step.now.divisor < 2 ^ 126 }
    requires wide { ¬ IsNarrow step.now.rows step.now.columns step.now.limit (new_entry step.now (kept_in step.now rows.now) seat.now step.now.divisor) }
    ensures { IsFirstWide step.now.rows step.now.columns step.now.limit (int_div (step.now.den *ℤ step.now.pivot) step.now.divisor) (new_entry step.now (kept_in step.now rows.now) seat.now step.now.divisor) result }
{
    let divider = Divider::new(step.divisor);
    for row in 0..step.rows + 2 {
        if let Some(column) = wide_in_row(step, &divider, rows, seat, row) {
            return Entry {
                row: row as u32,
                column: column as u32,
                num: new_entry(step, &divider, rows, seat, row, column),
                den: new_den(step),
            };
        }
    }
    unreachable!()
}
