//! A row over a denominator of its own.
use crate::combination::{Combination, SHORT, bits};
use crate::divisor::{Divisor, GREATEST};
use md_find_numbers::gcd;
use md_num::NoMemory;
use std::alloc::Global;
use std::mem::swap;

/// Whole numbers over one denominator, and how many bits they have at most. At a place past the last number stands 0.
#[derive(Drop)]
pub struct Row {
    den: i128,
    bits: u32,
    numbers: Vec<i128>,
}

impl Row {
    /// A row of zeros.
    pub fn zeros(alloc: Global, width: usize) -> Result<Row, NoMemory> {
        Ok(Row {
            den: 1,
            bits: 0,
            numbers: vec![in alloc; 0; width]?,
        })
    }

    /// The same row once more.
    pub fn copy(&self, alloc: Global) -> Result<Row, NoMemory> {
        Ok(Row {
            den: self.den,
            bits: self.bits,
            numbers: Vec::from_slice(alloc, self.numbers.as_slice())?,
        })
    }

    /// The denominator.
    pub fn den(&self) -> i128 {
        self.den
    }

    /// The number at a place, over the denominator.
    pub fn number(&self, place: usize) -> i128 {
        if place < self.numbers.len() {
            self.numbers[place]
        } else {
            0
        }
    }

    /// Writes a number at a place, over the denominator. Past the last number nothing is written.
    pub fn put(&mut self, place: usize, number: i128) {
        if place < self.numbers.len() {
            self.numbers[place] = number;
            self.bits = self.bits.max(bits(number.unsigned_abs()));
        }
    }

    /// Divides the row by its number at a place, where that is not 0: so a basic column of this row changes places with the column there. It answers whether it could.
    pub fn turn(&mut self, place: usize) -> bool {
        if self.number(place) < 0 {
            self.negate();
        }
        let pivot = self.number(place);
        if pivot <= 0 {
            return false;
        }
        self.put(place, self.den);
        self.den = pivot;
        true
    }

    // Multiplies the numbers and the denominator by -1.
    fn negate(&mut self) {
        self.den = self.den.wrapping_neg();
        for number in self.numbers.iter_mut() {
            *number = number.wrapping_neg();
        }
    }

    /// Takes another row from this one, where both have whole numbers. It answers whether it could.
    pub fn subtract(&mut self, other: &Row, spare: &mut Row) -> bool {
        let difference = Combination {
            multiplier: 1,
            factor: 1,
        };
        self.combine(&difference, other, 1, spare)
    }

    /// Takes so much of a turned row from this one that of what stood at the turned place nothing is left. It answers whether it could, in numbers of up to 126 bits. A spare row of the same width is written over.
    pub fn eliminate(&mut self, turned: &Row, place: usize, spare: &mut Row) -> bool {
        let entry = self.number(place);
        if entry == 0 {
            return true;
        }
        self.put(place, 0);
        let Some(combination) = elimination(turned.den, entry) else {
            return false;
        };
        let shared = gcd(self.den.unsigned_abs(), turned.number(place).unsigned_abs());
        self.combine(&combination, turned, shared, spare)
    }

    // Combines the row with another one, divided by what all its numbers have in common with a number that the denominator has in it.
    fn combine(
        &mut self,
        combination: &Combination,
        other: &Row,
        shared: u128,
        spare: &mut Row,
    ) -> bool {
        if shared == 0 || shared > GREATEST {
            return false;
        }
        let first = Divisor::new(shared);
        let most = combination.product_bits(self.bits, other.bits);
        if most <= SHORT {
            self.combine_short(combination, other, &first, most, spare)
        } else {
            self.combine_wide(combination, other, &first)
        }
    }

    // The same where the products have so many bits: all are divided by what they may have in common, which is made smaller where one cannot be.
    fn combine_short(
        &mut self,
        combination: &Combination,
        other: &Row,
        first: &Divisor,
        most: u32,
        spare: &mut Row,
    ) -> bool {
        let mut by = *first;
        for _ in 0..MOST_DIVISORS {
            let written = combination.write_divided(
                &by,
                most,
                self.numbers.as_slice(),
                other.numbers.as_slice(),
                spare.numbers.as_mut_slice(),
            );
            match written {
                Ok(bits) => {
                    swap(&mut self.numbers, &mut spare.numbers);
                    return self.divide_den(combination, &by, bits);
                }
                Err(size) => by = by.common(size),
            }
        }
        false
    }

    // The same with numbers of any length.
    fn combine_wide(&mut self, combination: &Combination, other: &Row, first: &Divisor) -> bool {
        let by = combination.common_divisor(
            first,
            self.numbers.as_slice(),
            other.numbers.as_slice(),
        );
        let written = combination.write(&by, self.numbers.as_mut_slice(), other.numbers.as_slice());
        match written {
            Some(bits) => self.divide_den(combination, &by, bits),
            None => false,
        }
    }

    // Writes the denominator of the combined row, whose numbers have so many bits.
    fn divide_den(&mut self, combination: &Combination, by: &Divisor, bits: u32) -> bool {
        self.bits = bits;
        match combination.den(self.den, by) {
            Some(den) => {
                self.den = den;
                bits <= MOST_BITS
            }
            None => false,
        }
    }
}

// How many bits a number has at most, and how many divisors are tried: each is at most half of the one before.
const MOST_BITS: u32 = 126;

const MOST_DIVISORS: u32 = 128;

// How a row with this entry is combined with a row that was divided by the pivot: both without what they have in common.
fn elimination(pivot: i128, entry: i128) -> Option<Combination> {
    let common = gcd(pivot.unsigned_abs(), entry.unsigned_abs());
    if common == 0 || common > GREATEST {
        return None;
    }
    Some(Combination {
        multiplier: pivot / (common as i128),
        factor: entry / (common as i128),
    })
}
