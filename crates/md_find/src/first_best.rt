//! The start at the first best: at each profile the best outcome comes, and each type pays all that its report says it gets.
ghost use Rattle.std.specs.Prelude.{◌<◌};
ghost use Rattle.md_lp.specs.Program.{row_count};

use crate::dictionary::Dictionary;
use crate::find_error::FindError;
use md_lp::{Lp, RowKind};
use md_num::NoMemory;
use std::alloc::Global;

/// In how many exact rows each column of a program stands.
#[derive(Drop)]
pub struct ExactCounts {
    counts: Vec<u32>,
}

impl ExactCounts {
    /// The counts of a program.
    pub fn new(alloc: Global, lp: &Lp) -> Result<ExactCounts, NoMemory> {
        let mut counts = ExactCounts {
            counts: vec![in alloc; 0; lp.columns() as usize]?,
        };
        for row in 0..lp.rows() {
            if lp.kind(row) == RowKind::Exact {
                counts.add_row(lp, row);
            }
        }
        Ok(counts)
    }

    // Counts the columns of a row.
    fn add_row(&mut self, lp: &Lp, row: u32)
        requires { row < row_count lp.now }
    {
        for place in 0..lp.term_count(row) {
            let column = lp.term(row, place).column as usize;
            if column < self.counts.len() {
                self.counts[column] = self.counts[column].saturating_add(1);
            }
        }
    }

    /// In how many exact rows a column stands.
    pub fn of(&self, column: usize) -> u32 {
        if column < self.counts.len() {
            self.counts[column]
        } else {
            0
        }
    }
}

// The place of a column that is in no exact row and has a negative number in the main row.
fn paying_place(dictionary: &Dictionary, counts: &ExactCounts, column: usize) -> Option<usize> {
    if counts.of(column) != 0 {
        return None;
    }
    let place = dictionary.basis().place(column)?;
    if dictionary.number(dictionary.main(), place) < 0 {
        Some(place)
    } else {
        None
    }
}

// The place of the first such column.
fn payment_place(dictionary: &Dictionary, counts: &ExactCounts, columns: u32) -> Option<usize> {
    for column in 0..columns as usize {
        if let Some(place) = paying_place(dictionary, counts, column) {
            return Some(place);
        }
    }
    None
}

// Whether a row is an at-most row that was not used yet and has a positive number at a place.
fn may_hold(lp: &Lp, dictionary: &Dictionary, row: u32, place: usize) -> bool
    requires { row < row_count lp.now }
{
    lp.kind(row) == RowKind::AtMost
        && dictionary.basis().has_unit(row as usize)
        && dictionary.number(row as usize, place) > 0
}

// The shorter of two rows, the first one where they have as many terms.
fn shorter(lp: &Lp, best: Option<u32>, row: u32) -> Option<u32>
    requires { row < row_count lp.now }
{
    let Some(other) = best else {
        return Some(row);
    };
    if other < lp.rows() && lp.term_count(other) <= lp.term_count(row) {
        best
    } else {
        Some(row)
    }
}

// The row that the column at a place enters: that with the fewest terms.
fn payment_row(lp: &Lp, dictionary: &Dictionary, place: usize) -> Option<u32> {
    let mut best = None;
    for row in 0..lp.rows() {
        if may_hold(lp, dictionary, row, place) {
            best = shorter(lp, best, row);
        }
    }
    best
}

// Makes columns that are in no exact row basic until none of them has a negative number in the main row.
fn take_payments(
    alloc: Global,
    lp: &Lp,
    counts: &ExactCounts,
    dictionary: &mut Dictionary,
) -> Result<(), FindError> {
    for _ in 0..lp.rows() {
        let Some(place) = payment_place(dictionary, counts, lp.columns()) else {
            break;
        };
        let Some(row) = payment_row(lp, dictionary, place) else {
            return Err(FindError::NoPlace);
        };
        dictionary.pivot(alloc, row as usize, place)?;
    }
    Ok(())
}

// The kept place of a column where a row has a number.
fn usable_place(dictionary: &Dictionary, row: usize, column: usize) -> Option<usize> {
    let place = dictionary.basis().place(column)?;
    if dictionary.number(row, place) == 0 {
        None
    } else {
        Some(place)
    }
}

// The better of two places by their numbers in the main row, the first one where these are the same.
fn better(dictionary: &Dictionary, best: Option<usize>, place: Option<usize>) -> Option<usize> {
    let main = dictionary.main();
    match (best, place) {
        (Some(first), Some(second)) => {
            if dictionary.number(main, second) < dictionary.number(main, first) {
                place
            } else {
                best
            }
        }
        (None, _) => place,
        (_, None) => best,
    }
}

// The place of the column of an exact row whose number in the main row is least.
fn outcome_place(lp: &Lp, dictionary: &Dictionary, row: u32) -> Option<usize>
    requires { row < row_count lp.now }
{
    let mut best = None;
    for term in 0..lp.term_count(row) {
        let column = lp.term(row, term).column as usize;
        best = better(
            dictionary,
            best,
            usable_place(dictionary, row as usize, column),
        );
    }
    best
}

// Makes a column of each exact row basic.
fn take_outcomes(alloc: Global, lp: &Lp, dictionary: &mut Dictionary) -> Result<(), FindError> {
    for row in 0..lp.rows() {
        if lp.kind(row) == RowKind::Exact {
            let Some(place) = outcome_place(lp, dictionary, row) else {
                return Err(FindError::NoPlace);
            };
            dictionary.pivot_dropping(alloc, row as usize, place)?;
        }
    }
    Ok(())
}

/// Goes to the first best.
///
/// # Errors
/// Where the main row has a negative number there, or it is not reached.
pub fn take_first_best(
    alloc: Global,
    lp: &Lp,
    dictionary: &mut Dictionary,
) -> Result<(), FindError> {
    let counts = ExactCounts::new(alloc, lp)?;
    take_payments(alloc, lp, &counts, dictionary)?;
    take_outcomes(alloc, lp, dictionary)?;
    match dictionary.negative_place(dictionary.main()) {
        Some(_) => Err(FindError::NoPlace),
        None => Ok(()),
    }
}
