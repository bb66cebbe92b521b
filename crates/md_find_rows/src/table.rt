//! Rows of one width, and pivots among them.
use crate::row::Row;
use md_num::NoMemory;
use std::alloc::Global;

/// Rows, each over a denominator of its own. A row past the last one has zeros.
#[derive(Drop)]
pub struct Table {
    rows: Vec<Row>,
}

impl Table {
    /// The table with no row.
    pub fn new(alloc: Global) -> Table {
        Table {
            rows: Vec::new(alloc),
        }
    }

    /// Appends a row.
    pub fn push(&mut self, row: Row) -> Result<(), NoMemory> {
        self.rows.push(row)?;
        Ok(())
    }

    /// The number of a row at a place, over the denominator of the row.
    pub fn number(&self, row: usize, place: usize) -> i128 {
        if row < self.rows.len() {
            self.rows[row].number(place)
        } else {
            0
        }
    }

    /// The denominator of a row.
    pub fn den(&self, row: usize) -> i128 {
        if row < self.rows.len() {
            self.rows[row].den()
        } else {
            1
        }
    }

    /// Removes the last row.
    pub fn pop(&mut self) {
        self.rows.pop();
    }

    /// Writes 0 at a place of all rows.
    pub fn clear(&mut self, place: usize) {
        for row in 0..self.rows.len() {
            self.rows[row].put(place, 0);
        }
    }

    /// Makes the column at a place basic at a row: the row is turned, and so much of it is taken from each other row that nothing is left there. It answers whether it could, in numbers of up to 126 bits.
    pub fn pivot(&mut self, alloc: Global, row: usize, place: usize) -> Result<bool, NoMemory> {
        if row >= self.rows.len() || !self.rows[row].turn(place) {
            return Ok(false);
        }
        let turned = self.rows[row].copy(alloc)?;
        let mut spare = turned.copy(alloc)?;
        Ok(self.eliminate(&turned, row, place, &mut spare))
    }

    // Takes a turned row from each other one.
    fn eliminate(&mut self, turned: &Row, row: usize, place: usize, spare: &mut Row) -> bool {
        for other in 0..self.rows.len() {
            if other != row && !self.rows[other].eliminate(turned, place, spare) {
                return false;
            }
        }
        true
    }
}
