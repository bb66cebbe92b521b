//! Square matrices of whole numbers.
use crate::residues::Residues;
use md_num::NoMemory;
use std::alloc::Global;

/// A number of a matrix that is not 0.
#[derive(Clone, Copy)]
pub struct Entry {
    pub row: usize,
    pub column: usize,
    pub number: i128,
}

/// A square matrix, by its numbers that are not 0.
#[derive(Drop)]
pub struct Matrix {
    size: usize,
    entries: Vec<Entry>,
}

impl Matrix {
    /// The matrix of so many rows and columns whose numbers are all 0.
    pub fn zeros(alloc: Global, size: usize) -> Matrix {
        Matrix {
            size,
            entries: Vec::new(alloc),
        }
    }

    /// Writes a number.
    pub fn push(&mut self, entry: Entry) -> Result<(), NoMemory> {
        self.entries.push(entry)?;
        Ok(())
    }

    /// How many rows there are, and columns.
    pub fn size(&self) -> usize {
        self.size
    }

    /// The numbers that are not 0.
    pub fn entries(&self) -> &[Entry] {
        self.entries.as_slice()
    }

    /// The matrix whose rows are the columns of this one.
    pub fn turned(&self, alloc: Global) -> Result<Matrix, NoMemory> {
        let mut turned = Matrix::zeros(alloc, self.size);
        for entry in self.entries() {
            turned.push(Entry {
                row: entry.column,
                column: entry.row,
                number: entry.number,
            })?;
        }
        Ok(turned)
    }

    /// The rows, those with the fewest numbers first. Before each stands how many it has.
    pub fn rows_by_length(&self, alloc: Global) -> Result<Vec<(usize, usize)>, NoMemory> {
        let mut rows = Vec::new(alloc);
        for row in 0..self.size {
            rows.push((0usize, row))?;
        }
        for entry in self.entries() {
            if entry.row < rows.len() {
                rows[entry.row].0 = rows[entry.row].0.saturating_add(1);
            }
        }
        rows.sort_unstable();
        Ok(rows)
    }

    /// Takes the product with a list from numbers, one for each row.
    pub fn subtract_product(&self, list: &Residues, from: &mut [i128]) {
        for entry in self.entries() {
            if entry.row < from.len() {
                let product = entry
                    .number
                    .wrapping_mul(i128::from(list.get(entry.column)));
                from[entry.row] = from[entry.row].wrapping_sub(product);
            }
        }
    }
}
