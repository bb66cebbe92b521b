//! Lists of residues.
use crate::prime::{difference, product, residue, sum};
use md_num::NoMemory;
use std::alloc::Global;

/// A list of residues. At a place past the last one stands 0.
#[derive(Drop)]
pub struct Residues {
    numbers: Vec<u64>,
}

/// A residue that is not 0, at a place of a list.
#[derive(Clone, Copy)]
pub struct Term {
    place: usize,
    number: u64,
}

impl Residues {
    /// So many zeros.
    pub fn zeros(alloc: Global, count: usize) -> Result<Residues, NoMemory> {
        Ok(Residues {
            numbers: vec![in alloc; 0; count]?,
        })
    }

    /// The residues of whole numbers.
    pub fn of(alloc: Global, numbers: &[i128]) -> Result<Residues, NoMemory> {
        let mut residues = Vec::new(alloc);
        for number in numbers {
            residues.push(residue(*number))?;
        }
        Ok(Residues { numbers: residues })
    }

    /// The residue at a place.
    pub fn get(&self, place: usize) -> u64 {
        if place < self.numbers.len() {
            self.numbers[place]
        } else {
            0
        }
    }

    /// Writes a residue at a place. Past the last one nothing is written.
    pub fn put(&mut self, place: usize, number: u64) {
        if place < self.numbers.len() {
            self.numbers[place] = number;
        }
    }

    /// What is not 0, multiplied by a factor.
    pub fn terms(&self, alloc: Global, factor: u64) -> Result<Vec<Term>, NoMemory> {
        let mut terms = Vec::new(alloc);
        for place in 0..self.numbers.len() {
            if self.numbers[place] != 0 {
                let number = product(self.numbers[place], factor);
                terms.push(Term { place, number })?;
            }
        }
        Ok(terms)
    }

    /// Writes terms at their places.
    pub fn write(&mut self, terms: &[Term]) {
        for term in terms {
            self.put(term.place, term.number);
        }
    }

    /// Takes a multiple of terms.
    pub fn subtract(&mut self, terms: &[Term], factor: u64) {
        for term in terms {
            let number = difference(self.get(term.place), product(term.number, factor));
            self.put(term.place, number);
        }
    }

    /// The sum of the products with another list, place by place.
    pub fn sum_of_products(&self, other: &Residues) -> u64 {
        let mut total = 0;
        for place in 0..self.numbers.len() {
            total = sum(total, product(self.numbers[place], other.get(place)));
        }
        total
    }
}
