//! The inverse of a matrix modulo the prime.
use crate::matrix::Matrix;
use crate::prime::{inverse, residue};
use crate::residues::{Residues, Term};
use md_find::FindError;
use md_num::NoMemory;
use std::alloc::Global;

/// The inverse of a matrix modulo the prime: its rows in the order of the rows of the matrix at which the columns were eliminated.
#[derive(Drop)]
pub struct Inverse {
    rows: Vec<Residues>,
    row_of: Vec<usize>,
}

// Where a column stands that was not eliminated yet.
const NOWHERE: usize = usize::MAX;

impl Inverse {
    /// The inverse of a matrix, by elimination: the rows with the fewest numbers come first.
    ///
    /// # Errors
    /// Where the matrix has none; or want of memory.
    pub fn new(alloc: Global, matrix: &Matrix) -> Result<Inverse, FindError> {
        let mut inverse = Inverse::begin(alloc, matrix)?;
        let order = matrix.rows_by_length(alloc)?;
        for (_, row) in order.as_slice() {
            inverse.eliminate(alloc, *row)?;
        }
        Ok(inverse)
    }

    // The residues of the matrix.
    fn begin(alloc: Global, matrix: &Matrix) -> Result<Inverse, NoMemory> {
        let size = matrix.size();
        let mut rows = Vec::new(alloc);
        for _ in 0..size {
            rows.push(Residues::zeros(alloc, size)?)?;
        }
        for entry in matrix.entries() {
            if entry.row < rows.len() {
                rows[entry.row].put(entry.column, residue(entry.number));
            }
        }
        Ok(Inverse {
            rows,
            row_of: vec![in alloc; NOWHERE; size]?,
        })
    }

    // The first column that was not eliminated and has a number in a row.
    fn column_for(&self, row: &Residues) -> Option<usize> {
        for column in 0..self.row_of.len() {
            if self.row_of[column] == NOWHERE && row.get(column) != 0 {
                return Some(column);
            }
        }
        None
    }

    // Eliminates a column at a row.
    fn eliminate(&mut self, alloc: Global, row: usize) -> Result<(), FindError> {
        if row >= self.rows.len() {
            return Err(FindError::Singular);
        }
        let Some(column) = self.column_for(&self.rows[row]) else {
            return Err(FindError::Singular);
        };
        let factor = inverse(self.rows[row].get(column));
        self.rows[row].put(column, 1);
        let terms = self.rows[row].terms(alloc, factor)?;
        self.rows[row].write(terms.as_slice());
        self.subtract(terms.as_slice(), row, column);
        if column < self.row_of.len() {
            self.row_of[column] = row;
        }
        Ok(())
    }

    // Takes so much of a divided row from each other one that of what stood at a column nothing is left.
    fn subtract(&mut self, terms: &[Term], row: usize, column: usize) {
        for other in 0..self.rows.len() {
            let factor = self.rows[other].get(column);
            if other != row && factor != 0 {
                self.rows[other].put(column, 0);
                self.rows[other].subtract(terms, factor);
            }
        }
    }

    /// The product with a list.
    pub fn times(&self, alloc: Global, list: &Residues) -> Result<Residues, NoMemory> {
        let mut ordered = Residues::zeros(alloc, self.row_of.len())?;
        for column in 0..self.row_of.len() {
            ordered.put(column, list.get(self.row_of[column]));
        }
        let mut product = Residues::zeros(alloc, self.row_of.len())?;
        for column in 0..self.row_of.len() {
            let row = self.row_of[column];
            if row < self.rows.len() {
                product.put(column, self.rows[row].sum_of_products(&ordered));
            }
        }
        Ok(product)
    }
}
