//! Weights of rows, in whole logarithms.
use crate::dictionary::Dictionary;
use md_num::NoMemory;
use std::alloc::Global;

/// 256 times the logarithm of the size of a number, to base 2, as a whole number; of 0 it is 0.
pub fn logarithm(number: i128) -> i64 {
    let size = number.unsigned_abs();
    let zeros = size.leading_zeros();
    let bits = 128u32.saturating_sub(zeros);
    let front = size.wrapping_shl(zeros) >> 119u32;
    i64::from(bits)
        .saturating_mul(256)
        .saturating_add(front as i64)
}

/// A weight for each row: about the logarithm of the square of its length.
#[derive(Drop)]
pub struct Weights {
    weights: Vec<i64>,
}

// The numbers of a pivot, of which weights are made.
#[derive(Clone, Copy)]
struct Pivot {
    row: usize,
    place: usize,
    entry: i64,
    weight: i64,
}

// The logarithm of the number of a row at a place.
fn entry_logarithm(dictionary: &Dictionary, row: usize, place: usize) -> i64 {
    logarithm(dictionary.number(row, place)).saturating_sub(logarithm(dictionary.den(row)))
}

impl Weights {
    /// So many rows of the weight 0.
    pub fn new(alloc: Global, rows: usize) -> Result<Weights, NoMemory> {
        Ok(Weights {
            weights: vec![in alloc; 0; rows]?,
        })
    }

    /// The weight of a row.
    pub fn of(&self, row: usize) -> i64 {
        if row < self.weights.len() {
            self.weights[row]
        } else {
            0
        }
    }

    /// Takes the pivot that is to come into the weights.
    pub fn pass(&mut self, dictionary: &Dictionary, row: usize, place: usize) {
        let entry = entry_logarithm(dictionary, row, place).saturating_mul(2);
        let weight = self.of(row);
        let pivot = Pivot {
            row,
            place,
            entry,
            weight,
        };
        for other in 0..self.weights.len() {
            self.weights[other] = pivot.weight_of(dictionary, other, self.weights[other]);
        }
    }
}

impl Pivot {
    // The new weight of a row.
    fn weight_of(&self, dictionary: &Dictionary, row: usize, weight: i64) -> i64 {
        if row == self.row {
            return weight.saturating_sub(self.entry).max(0);
        }
        if dictionary.number(row, self.place) == 0 {
            return weight;
        }
        let entry = entry_logarithm(dictionary, row, self.place).saturating_mul(2);
        let share = entry.saturating_sub(self.entry).saturating_add(self.weight);
        weight.max(share)
    }
}
