//! Columns of a program that are left out, since others stand for them.
ghost use Rattle.std.specs.Prelude.{◌<◌};
ghost use Rattle.md_lp.specs.Program.{row_count};

use md_find_numbers::gcd;
use md_lp::Lp;
use md_num::NoMemory;
use std::alloc::Global;

// What is known of a column while the rows are gone through: what its numbers have in common, and a number that is made of all of them without that.
#[derive(Clone, Copy)]
struct Likeness {
    divisor: u128,
    mark: u128,
}

// The mark of a column without numbers, and the factor by which marks are mixed.
const FIRST_MARK: u128 = 0x6c62_272e_07bb_0142_62b8_2175_6295_c58d;

const MARK_FACTOR: u128 = 0x0000_0000_0100_0000_0000_0000_0000_013b;

impl Likeness {
    // The mark with one more number.
    fn mix(&mut self, number: u128) {
        self.mark = (self.mark ^ number).wrapping_mul(MARK_FACTOR);
    }

    // The mark with one more number of the column, at a place.
    fn mix_number(&mut self, place: u32, number: i128) {
        self.mix(u128::from(place));
        self.mix(u128::from(number.is_negative()));
        self.mix(number.unsigned_abs().checked_div(self.divisor).unwrap_or(0));
    }
}

// What the cost has in common with each column.
fn with_costs(alloc: Global, lp: &Lp) -> Result<Vec<Likeness>, NoMemory> {
    let mut columns = Vec::new(alloc);
    for column in 0..lp.columns() {
        columns.push(Likeness {
            divisor: lp.cost(column).unsigned_abs(),
            mark: FIRST_MARK,
        })?;
    }
    Ok(columns)
}

// Takes the numbers of a row into the divisors of their columns.
fn divide_by_row(lp: &Lp, row: u32, columns: &mut [Likeness])
    requires { row < row_count lp.now }
{
    for place in 0..lp.term_count(row) {
        let term = lp.term(row, place);
        let column = term.column as usize;
        if column < columns.len() {
            columns[column].divisor = gcd(columns[column].divisor, term.value.unsigned_abs());
        }
    }
}

// Takes the numbers of a row into the marks of their columns.
fn mark_row(lp: &Lp, row: u32, columns: &mut [Likeness])
    requires { row < row_count lp.now }
{
    for place in 0..lp.term_count(row) {
        let term = lp.term(row, place);
        let column = term.column as usize;
        if column < columns.len() {
            columns[column].mix_number(row, term.value);
        }
    }
}

// Takes the cost into the marks.
fn mark_costs(lp: &Lp, columns: &mut [Likeness]) {
    for column in 0..lp.columns() {
        let place = column as usize;
        if place < columns.len() {
            columns[place].mix_number(lp.rows(), lp.cost(column));
        }
    }
}

// What is known of each column after all rows.
fn likenesses(alloc: Global, lp: &Lp) -> Result<Vec<Likeness>, NoMemory> {
    let mut columns = with_costs(alloc, lp)?;
    for row in 0..lp.rows() {
        divide_by_row(lp, row, columns.as_mut_slice());
    }
    for row in 0..lp.rows() {
        mark_row(lp, row, columns.as_mut_slice());
    }
    mark_costs(lp, columns.as_mut_slice());
    Ok(columns)
}

// The columns that are not 0 throughout, each behind its mark, in the order of the marks.
fn by_mark(alloc: Global, columns: &[Likeness]) -> Result<Vec<(u128, usize)>, NoMemory> {
    let mut marks = Vec::new(alloc);
    for column in 0..columns.len() {
        if columns[column].divisor != 0 {
            marks.push((columns[column].mark, column))?;
        }
    }
    marks.sort_unstable();
    Ok(marks)
}

/// Which columns of a program stand for all: of those that are positive multiples of each other, with their cost, the first, and none that is 0 throughout.
pub fn leading_columns(alloc: Global, lp: &Lp) -> Result<Vec<bool>, NoMemory> {
    let columns = likenesses(alloc, lp)?;
    let marks = by_mark(alloc, columns.as_slice())?;
    let mut leads = vec![in alloc; false; columns.len()]?;
    let mut last = None;
    for (mark, column) in marks.as_slice() {
        if last != Some(*mark) && *column < leads.len() {
            leads[*column] = true;
        }
        last = Some(*mark);
    }
    Ok(leads)
}
