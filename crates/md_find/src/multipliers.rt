//! The multipliers that a row of a dictionary gives.
ghost use Rattle.std.specs.Prelude.{◌<◌};
ghost use Rattle.md_lp.specs.Program.{row_count};

use crate::basis::{Sides, is_turned};
use crate::dictionary::Dictionary;
use crate::find_error::FindError;
use crate::first_best::ExactCounts;
use crate::fraction::Fraction;
use crate::fractions::{Numbers, over_one};
use md_lp::{Lp, RowKind, Term};
use md_num::NoMemory;
use std::alloc::Global;

/// What multipliers are weighed against: the cost, or nothing.
#[derive(Clone, Copy, PartialEq, Eq)]
pub enum Level {
    Main,
    Face,
}

/// The multipliers that a row of the dictionary gives, one for each program row.
///
/// # Errors
/// Where a number of them has more than 62 bits, or an exact row has no basic column of its own; or want of memory.
pub fn multipliers(
    alloc: Global,
    lp: &Lp,
    dictionary: &Dictionary,
    row: usize,
    level: Level,
) -> Result<Vec<Fraction>, FindError> {
    let mut fractions = unit_multipliers(alloc, lp, dictionary, row)?;
    if dictionary.basis().sides() == Sides::Kept {
        let slacks = over_one(alloc, fractions.as_slice())?;
        let sums = column_sums(alloc, lp, &slacks)?;
        let counts = ExactCounts::new(alloc, lp)?;
        let exact = ExactMultipliers {
            row,
            level,
            den: slacks.den,
            sums,
            counts,
        };
        exact.write(lp, dictionary, fractions.as_mut_slice())?;
    }
    Ok(fractions)
}

// The multipliers by the columns of the first basis. A row that was turned has its negative. Start columns that were dropped give 0.
fn unit_multipliers(
    alloc: Global,
    lp: &Lp,
    dictionary: &Dictionary,
    row: usize,
) -> Result<Vec<Fraction>, NoMemory> {
    let den = dictionary.den(row);
    let mut fractions = Vec::new(alloc);
    for of in 0..lp.rows() {
        let number = dictionary.multiplier(row, of as usize);
        let turned = is_turned(lp, of, dictionary.basis().sides());
        fractions.push(Fraction::new(number, den).turned(turned))?;
    }
    Ok(fractions)
}

// The sum of each column, each number times the multiplier of its row.
fn column_sums(alloc: Global, lp: &Lp, slacks: &Numbers) -> Result<Vec<i128>, NoMemory> {
    let mut sums = vec![in alloc; 0; lp.columns() as usize]?;
    for row in 0..lp.rows() {
        let place = row as usize;
        if place < slacks.numbers.len() {
            add_row(lp, row, slacks.numbers.get(place), sums.as_mut_slice());
        }
    }
    Ok(sums)
}

// Adds a multiple of a row to the sums.
fn add_row(lp: &Lp, row: u32, multiplier: i128, sums: &mut [i128])
    requires { row < row_count lp.now }
{
    if multiplier == 0 {
        return;
    }
    for place in 0..lp.term_count(row) {
        let term = lp.term(row, place);
        let column = term.column as usize;
        if column < sums.len() {
            sums[column] = sums[column].wrapping_add(term.value.wrapping_mul(multiplier));
        }
    }
}

// How the multipliers of exact rows are worked out whose start columns were dropped: a column that stands in no other exact row has a number in the row of the dictionary, and the sum over its rows is that number and its cost.
#[derive(Drop)]
struct ExactMultipliers {
    row: usize,
    level: Level,
    den: i128,
    sums: Vec<i128>,
    counts: ExactCounts,
}

impl ExactMultipliers {
    // Writes the multipliers of exact rows.
    fn write(
        &self,
        lp: &Lp,
        dictionary: &Dictionary,
        fractions: &mut [Fraction],
    ) -> Result<(), FindError> {
        for row in 0..lp.rows() {
            let place = row as usize;
            if lp.kind(row) == RowKind::Exact && place < fractions.len() {
                let Some(fraction) = self.multiplier(lp, dictionary, row) else {
                    return Err(FindError::NoPlace);
                };
                fractions[place] = fraction;
            }
        }
        Ok(())
    }

    // The multiplier of an exact row.
    fn multiplier(&self, lp: &Lp, dictionary: &Dictionary, row: u32) -> Option<Fraction>
        requires { row < row_count lp.now }
    {
        for place in 0..lp.term_count(row) {
            let term = lp.term(row, place);
            let column = term.column as usize;
            if self.counts.of(column) == 1 {
                if let Some(basic) = dictionary.basis().row(column) {
                    return Some(self.by_term(lp, basic, term));
                }
            }
        }
        None
    }

    // The multiplier of an exact row by a term whose column is basic and in no other one.
    fn by_term(&self, lp: &Lp, basic: usize, term: Term) -> Fraction {
        let number = self.column_number(lp, basic, term.column);
        let den = self.den.wrapping_mul(term.value);
        Fraction::new(number, den).turned(den < 0)
    }

    // What the multiplier of its exact row has to add at a basic column, over the denominator of the others.
    fn column_number(&self, lp: &Lp, basic: usize, column: u32) -> i128 {
        let mut number = self.den.wrapping_mul(self.cost(lp, column));
        if basic == self.row {
            number = number.wrapping_add(self.den);
        }
        let place = column as usize;
        if place < self.sums.len() {
            number = number.wrapping_sub(self.sums[place]);
        }
        number
    }

    // The cost of a column, where it counts.
    fn cost(&self, lp: &Lp, column: u32) -> i128 {
        if self.level == Level::Main && column < lp.columns() {
            lp.cost(column)
        } else {
            0
        }
    }
}
