//! The dictionary of a basis, each row over a denominator of its own.
use crate::basis::{Basis, Sides};
use crate::find_error::FindError;
use md_find_rows::{Row, Table};
use md_num::NoMemory;
use std::alloc::Global;

/// The dictionary of a basis of a linear program. Its rows are the program rows, then the face row and the main row, and maybe a guide row. It keeps the numbers of the columns that are not basic, and the right side behind them. In the face row a start column that is basic has 0, and not -1.
#[derive(Drop)]
pub struct Dictionary {
    table: Table,
    rows: usize,
    basis: Basis,
}

impl Dictionary {
    /// The dictionary of a basis with so many program rows.
    pub fn new(table: Table, rows: usize, basis: Basis) -> Dictionary {
        Dictionary { table, rows, basis }
    }

    /// The basis.
    pub fn basis(&self) -> &Basis {
        &self.basis
    }

    /// How many program rows there are.
    pub fn rows(&self) -> usize {
        self.rows
    }

    /// The number of the face row.
    pub fn face(&self) -> usize {
        self.rows
    }

    /// The number of the main row.
    pub fn main(&self) -> usize {
        self.rows.saturating_add(1)
    }

    /// The number of the guide row.
    pub fn guide(&self) -> usize {
        self.rows.saturating_add(2)
    }

    /// The number of a row at a kept place, over the denominator of the row.
    pub fn number(&self, row: usize, place: usize) -> i128 {
        self.table.number(row, place)
    }

    /// The right side of a row, over the denominator of the row.
    pub fn right(&self, row: usize) -> i128 {
        self.table.number(row, self.basis.kept())
    }

    /// The denominator of a row.
    pub fn den(&self, row: usize) -> i128 {
        self.table.den(row)
    }

    /// The number of a row at a column, over the denominator of the row.
    pub fn column_number(&self, row: usize, column: usize) -> i128 {
        match self.basis.row(column) {
            Some(basic) if basic == row => self.den(row),
            Some(_) => 0,
            None => self.number(row, self.basis.seat(column)),
        }
    }

    /// The number of a row at the column that a program row had in the first basis, over the denominator of the row.
    pub fn unit_number(&self, row: usize, of: usize) -> i128 {
        self.column_number(row, self.basis.unit(of))
    }

    /// The multiplier that a row gives a program row, over the denominator of the row: its number there, and in the face row 1 less at a start column. Where start columns were dropped it is 0 at these.
    pub fn multiplier(&self, row: usize, of: usize) -> i128 {
        let number = self.unit_number(row, of);
        if row == self.face() && self.counts_start(of) {
            number.wrapping_sub(self.den(row))
        } else {
            number
        }
    }

    // Whether the face row counts the start column of a program row.
    fn counts_start(&self, of: usize) -> bool {
        self.basis.sides() == Sides::Turned && self.basis.is_start(self.basis.unit(of))
    }

    /// Makes the column at a place basic at a row.
    ///
    /// # Errors
    /// Where there is no such place, or a number of a row would have more than 126 bits; or want of memory.
    pub fn pivot(&mut self, alloc: Global, row: usize, place: usize) -> Result<(), FindError> {
        if !self.table.pivot(alloc, row, place)? {
            return Err(FindError::TooWide);
        }
        if !self.basis.exchange(row, place) {
            return Err(FindError::NoPlace);
        }
        Ok(())
    }

    /// The same, where the column that leaves is no longer kept: all rows have 0 there from now on.
    pub fn pivot_dropping(
        &mut self,
        alloc: Global,
        row: usize,
        place: usize,
    ) -> Result<(), FindError> {
        self.pivot(alloc, row, place)?;
        self.table.clear(place);
        Ok(())
    }

    /// Appends the guide row.
    pub fn push_guide(&mut self, guide: Row) -> Result<(), NoMemory> {
        self.table.push(guide)
    }

    /// Removes the guide row.
    pub fn pop_guide(&mut self) {
        self.table.pop();
    }

    /// Whether no program row has a negative right side.
    pub fn is_feasible(&self) -> bool {
        for row in 0..self.rows {
            if self.right(row) < 0 {
                return false;
            }
        }
        true
    }

    /// The first place where a row has a negative number.
    pub fn negative_place(&self, row: usize) -> Option<usize> {
        for place in 0..self.basis.kept() {
            if self.number(row, place) < 0 {
                return Some(place);
            }
        }
        None
    }
}
