//! The equations of a basis. The rows without a basic slack say what the basic columns are, and the basic columns say what multipliers these rows have.
ghost use Rattle.std.specs.Prelude.{◌<◌};
ghost use Rattle.md_lp.specs.Program.{row_count};

use crate::matrix::{Entry, Matrix};
use md_lp::Lp;
use md_num::{NoMemory, Nums};
use std::alloc::Global;

/// The equations of a basis, by the basic columns of a program and the rows without a basic slack.
#[derive(Drop)]
pub struct Equations {
    columns: Vec<u32>,
    rows: Vec<u32>,
}

// Where a column stands that is not basic.
const NOWHERE: usize = usize::MAX;

// The rows whose slack is not among the basic ones.
fn rows_without(alloc: Global, lp: &Lp, slacks: &[u32]) -> Result<Vec<u32>, NoMemory> {
    let mut is_basic = vec![in alloc; false; lp.rows() as usize]?;
    for slack in slacks {
        let row = *slack as usize;
        if row < is_basic.len() {
            is_basic[row] = true;
        }
    }
    let mut rows = Vec::new(alloc);
    for row in 0..lp.rows() {
        let place = row as usize;
        if place < is_basic.len() && !is_basic[place] {
            rows.push(row)?;
        }
    }
    Ok(rows)
}

// Writes the terms of a row of the program whose columns are basic.
fn push_row(
    lp: &Lp,
    number: u32,
    row: usize,
    seats: &[usize],
    matrix: &mut Matrix,
) -> Result<(), NoMemory>
    requires { number < row_count lp.now }
{
    for place in 0..lp.term_count(number) {
        let term = lp.term(number, place);
        let column = term.column as usize;
        if column < seats.len() && seats[column] != NOWHERE {
            matrix.push(Entry {
                row,
                column: seats[column],
                number: term.value,
            })?;
        }
    }
    Ok(())
}

// Numbers at their places, and 0 elsewhere.
fn spread(alloc: Global, count: u32, places: &[u32], numbers: &[i128]) -> Result<Nums, NoMemory> {
    let mut list = vec![in alloc; 0; count as usize]?;
    for at in 0..places.len() {
        let place = places[at] as usize;
        if at < numbers.len() && place < list.len() {
            list[place] = numbers[at];
        }
    }
    Nums::from_slice(alloc, list.as_slice())
}

impl Equations {
    /// Those of a basis of some columns, and of the slacks of some rows.
    pub fn new(
        alloc: Global,
        lp: &Lp,
        columns: &[u32],
        slacks: &[u32],
    ) -> Result<Equations, NoMemory> {
        Ok(Equations {
            columns: Vec::from_slice(alloc, columns)?,
            rows: rows_without(alloc, lp, slacks)?,
        })
    }

    /// Whether there are as many basic columns as rows.
    pub fn is_square(&self) -> bool {
        self.columns.len() == self.rows.len()
    }

    // Where each column of the program stands among the basic ones.
    fn seats(&self, alloc: Global, lp: &Lp) -> Result<Vec<usize>, NoMemory> {
        let mut seats = vec![in alloc; NOWHERE; lp.columns() as usize]?;
        for seat in 0..self.columns.len() {
            let column = self.columns[seat] as usize;
            if column < seats.len() {
                seats[column] = seat;
            }
        }
        Ok(seats)
    }

    /// The numbers of the rows at the columns.
    pub fn matrix(&self, alloc: Global, lp: &Lp) -> Result<Matrix, NoMemory> {
        let seats = self.seats(alloc, lp)?;
        let mut matrix = Matrix::zeros(alloc, self.rows.len());
        for row in 0..self.rows.len() {
            if self.rows[row] < lp.rows() {
                push_row(lp, self.rows[row], row, seats.as_slice(), &mut matrix)?;
            }
        }
        Ok(matrix)
    }

    /// The right sides of the rows.
    pub fn right_sides(&self, alloc: Global, lp: &Lp) -> Result<Vec<i128>, NoMemory> {
        let mut numbers = Vec::new(alloc);
        for row in self.rows.as_slice() {
            numbers.push(if *row < lp.rows() { lp.right(*row) } else { 0 })?;
        }
        Ok(numbers)
    }

    /// The costs of the columns.
    pub fn costs(&self, alloc: Global, lp: &Lp) -> Result<Vec<i128>, NoMemory> {
        let mut numbers = Vec::new(alloc);
        for column in self.columns.as_slice() {
            numbers.push(if *column < lp.columns() {
                lp.cost(*column)
            } else {
                0
            })?;
        }
        Ok(numbers)
    }

    /// A number for each column of the program: those of the basic ones, and 0.
    pub fn point(&self, alloc: Global, lp: &Lp, numbers: &[i128]) -> Result<Nums, NoMemory> {
        spread(alloc, lp.columns(), self.columns.as_slice(), numbers)
    }

    /// A number for each row of the program: those of the rows without a basic slack, and 0.
    pub fn multipliers(&self, alloc: Global, lp: &Lp, numbers: &[i128]) -> Result<Nums, NoMemory> {
        spread(alloc, lp.rows(), self.rows.as_slice(), numbers)
    }
}
