//! A pivot by its row, its place and its two columns, and the numbers it makes before they are divided.
ghost use Rattle.std.specs.Prelude.{◌≡◌, ◌+◌, ◌^◌, ◌<◌, ◌≤◌, pos, ◌-ℤ◌, ◌*ℤ◌, ◌<ℤ◌, unsigned_abs};
ghost use Rattle.md_math.specs.Divisors.{Divides};
ghost use Rattle.md_math.specs.Sizes.{IsWithin};
ghost use Rattle.md_dict.specs.Dictionary.{basic_value};

use crate::rows::Rows;
use md_num::{exact_quotient, product};

// What a pivot needs to know: how many program rows and how many program and slack columns there are, the row and the kept place of the pivot, the entering and the leaving column, the pivot, the denominator, how large a number may be, and the number by which all is divided.
#[derive(Clone, Copy)]
pub struct Step {
    pub rows: usize,
    pub columns: usize,
    pub row: usize,
    pub place: usize,
    pub entering: usize,
    pub leaving: usize,
    pub pivot: i128,
    pub den: i128,
    pub limit: u128,
    pub divisor: i128,
}

impl Step {
    ghost use Rattle.md_dict.specs.Step.{number_in, old_number, multiplier_of, factor_of, raw_number};
    ghost use Rattle.md_dict.specs.RowStep.{IsRowStep, kept_in};

    // What the leaving column holds in a row.
    fn leaving_value(&self, row: usize) -> i128
        requires { IsWithin (2 ^ 62) self.now.den }
        ensures value { result ≡ basic_value self.now.rows self.now.columns self.now.den self.now.row self.now.leaving row }
        ensures size { IsWithin (2 ^ 62) result }
    {
        basic_number(
            self.rows,
            self.columns,
            self.den,
            self.row,
            self.leaving,
            row,
        )
    }

    // The kept number at a row and a place.
    pub fn number(&self, rows: &Rows, row: usize, place: usize) -> i128
        requires table { IsRowStep self.now rows.now }
        requires row { row < self.now.rows + 2 }
        requires place { place < self.now.columns + 1 }
        ensures value { result ≡ number_in self.now (kept_in self.now rows.now) row place }
        ensures size { IsWithin (2 ^ 62) result }
    {
        rows.number(row, place)
    }

    // The number before the pivot.
    fn old_number(&self, rows: &Rows, row: usize, place: usize) -> i128
        requires table { IsRowStep self.now rows.now }
        requires row { row < self.now.rows + 2 }
        requires place { place < self.now.columns + 1 }
        ensures value { result ≡ old_number self.now (kept_in self.now rows.now) row place }
        ensures size { IsWithin (2 ^ 62) result }
    {
        if place == self.place {
            self.leaving_value(row)
        } else {
            self.number(rows, row, place)
        }
    }

    // What multiplies a row.
    pub fn multiplier(&self, row: usize) -> i128
        requires den { IsWithin (2 ^ 62) self.now.den }
        requires pivot { IsWithin (2 ^ 62) self.now.pivot }
        ensures value { result ≡ multiplier_of self.now row }
        ensures size { IsWithin (2 ^ 62) result }
    {
        if row == self.row {
            self.den
        } else {
            self.pivot
        }
    }

    // How often the pivot row is taken from a row.
    pub fn factor(&self, rows: &Rows, row: usize) -> i128
        requires table { IsRowStep self.now rows.now }
        requires row { row < self.now.rows + 2 }
        ensures value { result ≡ factor_of self.now (kept_in self.now rows.now) row }
        ensures size { IsWithin (2 ^ 62) result }
    {
        if row == self.row {
            0
        } else {
            self.number(rows, row, self.place)
        }
    }

    // The number at a kept place after the pivot, over the denominator times the pivot.
    pub fn raw_number(&self, rows: &Rows, row: usize, place: usize) -> i128
        requires step { IsRowStep self.now rows.now }
        requires row { row < self.now.rows + 2 }
        requires place { place < self.now.columns + 1 }
        ensures value { result ≡ raw_number self.now (kept_in self.now rows.now) row place }
        ensures size { unsigned_abs result < 2 ^ 126 }
    {
        short_cross_difference(
            self.multiplier(row),
            self.old_number(rows, row, place),
            self.factor(rows, row),
            self.old_number(rows, self.row, place),
        )
    }

    // The step with its divisor, where the denominator after it is known.
    pub fn over(&self, den: i128) -> Step
        requires pivot { unsigned_abs (self.now.den *ℤ self.now.pivot) < 2 ^ 126 }
        requires den_size { IsWithin (2 ^ 62) self.now.den }
        requires pivot_size { IsWithin (2 ^ 62) self.now.pivot }
        requires positive { pos 0 <ℤ den }
        requires size { unsigned_abs den < 2 ^ 126 }
        requires divides { Divides den (self.now.den *ℤ self.now.pivot) }
        ensures step { result ≡ record self.now { divisor = result.divisor } }
        ensures divisor { result.divisor *ℤ den ≡ self.now.den *ℤ self.now.pivot }
    {
        Step {
            divisor: exact_quotient(product(self.den, self.pivot), den),
            ..*self
        }
    }
}

// What the basic column of a program row holds in a row.
pub fn basic_number(
    rows: usize,
    columns: usize,
    den: i128,
    basic_row: usize,
    column: usize,
    row: usize,
) -> i128
    requires { unsigned_abs den < 2 ^ 126 }
    ensures value { result ≡ basic_value rows columns den basic_row column row }
    ensures size { unsigned_abs result ≤ unsigned_abs den }
{
    if row == basic_row {
        den
    } else if row == rows && column >= columns {
        -den
    } else {
        0
    }
}

// The difference of two products of numbers of 62 bits, `a * b - c * d`, each by one multiplication of 64 bits.
fn short_cross_difference(a: i128, b: i128, c: i128, d: i128) -> i128
    requires a { IsWithin (2 ^ 62) a }
    requires b { IsWithin (2 ^ 62) b }
    requires c { IsWithin (2 ^ 62) c }
    requires d { IsWithin (2 ^ 62) d }
    ensures value { result ≡ a *ℤ b -ℤ c *ℤ d }
    ensures size { unsigned_abs result < 2 ^ 126 }
{
    let first = i128::from(a as i64) * i128::from(b as i64);
    let second = i128::from(c as i64) * i128::from(d as i64);
    first - second
}
