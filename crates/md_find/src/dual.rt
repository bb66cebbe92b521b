//! The dual walk: it repairs negative right sides, and keeps a row of which no number is negative.
use crate::dictionary::Dictionary;
use crate::find_error::FindError;
use crate::walk::MOST_PIVOTS;
use crate::weights::{Weights, logarithm};
use md_find_numbers::WideNumber;
use std::alloc::Global;

/// How a dual walk ends.
#[derive(Clone, Copy)]
pub enum Repair {
    /// No right side is negative.
    Feasible,
    /// No point meets the program, as this row shows.
    Infeasible(usize),
}

// A row that may leave, and how much its right side counts.
#[derive(Clone, Copy)]
struct Broken {
    row: usize,
    score: i64,
}

// The row that leaves: of those with a negative right side the one whose right side is greatest beside its weight.
fn leaving_row(dictionary: &Dictionary, weights: &Weights) -> Option<usize> {
    let mut best: Option<Broken> = None;
    for row in 0..dictionary.rows() {
        let right = dictionary.right(row);
        if right < 0 {
            let size = logarithm(right).saturating_sub(logarithm(dictionary.den(row)));
            let score = size.saturating_mul(2).saturating_sub(weights.of(row));
            best = greater(best, Broken { row, score });
        }
    }
    Some(best?.row)
}

// The one that counts more, the first one where both count the same.
fn greater(best: Option<Broken>, next: Broken) -> Option<Broken> {
    match best {
        Some(other) if other.score >= next.score => best,
        _ => Some(next),
    }
}

// The place that enters at a row where its number is negative: the one where the number of the guiding row is least beside it, and of equal ones the one with the greatest number.
fn better(
    dictionary: &Dictionary,
    guide: usize,
    row: usize,
    best: Option<usize>,
    place: usize,
) -> Option<usize> {
    let Some(other) = best else {
        return Some(place);
    };
    let number = dictionary.number(row, place);
    let other_number = dictionary.number(row, other);
    let gap = WideNumber::cross_difference(
        dictionary.number(guide, other),
        number,
        dictionary.number(guide, place),
        other_number,
    );
    if gap.is_negative() || (gap.is_zero() && number < other_number) {
        Some(place)
    } else {
        best
    }
}

// The place that enters at a row. Start columns never do.
fn entering_place(dictionary: &Dictionary, guide: usize, row: usize) -> Option<usize> {
    let mut best = None;
    for place in 0..dictionary.basis().kept() {
        if dictionary.number(row, place) < 0 && !dictionary.basis().has_start_at(place) {
            best = better(dictionary, guide, row, best, place);
        }
    }
    best
}

/// Walks until no right side is negative, guided by a row that has no negative number.
///
/// # Errors
/// Where a row is too wide or too many pivots are made; or want of memory.
pub fn dual_walk(
    alloc: Global,
    dictionary: &mut Dictionary,
    guide: usize,
) -> Result<Repair, FindError> {
    let mut weights = Weights::new(alloc, dictionary.rows())?;
    for _ in 0..MOST_PIVOTS {
        let Some(row) = leaving_row(dictionary, &weights) else {
            return Ok(Repair::Feasible);
        };
        let Some(place) = entering_place(dictionary, guide, row) else {
            return Ok(Repair::Infeasible(row));
        };
        weights.pass(dictionary, row, place);
        dictionary.pivot(alloc, row, place)?;
    }
    Err(FindError::Steps)
}
