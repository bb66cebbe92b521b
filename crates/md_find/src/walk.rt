//! A walk from a basis to an end.
use crate::dictionary::Dictionary;
use crate::entering::{Phase, entering_place};
use crate::find_error::FindError;
use crate::leaving::leaving_row;
use std::alloc::Global;

/// How a walk ends.
#[derive(Clone, Copy)]
pub enum End {
    /// No point meets the program, as this row shows.
    Infeasible(usize),
    /// The point of the dictionary has the greatest cost.
    Optimal,
    /// The column at this place may grow without end.
    Unbounded(usize),
}

// What the rules say of a dictionary.
#[derive(Clone, Copy)]
enum Step {
    // The column at the place enters and the row leaves.
    Pivot { row: usize, place: usize },
    // The walk is over.
    Over(End),
}

/// How many pivots a walk makes at most.
pub const MOST_PIVOTS: u32 = 20_000;

// What the rules say where the column at a place enters.
fn step_at(dictionary: &Dictionary, place: usize) -> Step {
    match leaving_row(dictionary, place) {
        Some(row) => Step::Pivot { row, place },
        None => Step::Over(End::Unbounded(place)),
    }
}

// What the rules say of a dictionary: a column enters that the face row asks for, and where there is none one that the main row asks for.
fn next(dictionary: &Dictionary) -> Step {
    if let Some(place) = entering_place(dictionary, Phase::Face) {
        return step_at(dictionary, place);
    }
    if dictionary.right(dictionary.face()) < 0 {
        return Step::Over(End::Infeasible(dictionary.face()));
    }
    if let Some(place) = entering_place(dictionary, Phase::Main) {
        return step_at(dictionary, place);
    }
    Step::Over(End::Optimal)
}

/// Walks to an end.
///
/// # Errors
/// Where a row is too wide or too many pivots are made; or want of memory.
pub fn walk(alloc: Global, dictionary: &mut Dictionary) -> Result<End, FindError> {
    for _ in 0..MOST_PIVOTS {
        match next(dictionary) {
            Step::Pivot { row, place } => dictionary.pivot(alloc, row, place)?,
            Step::Over(end) => return Ok(end),
        }
    }
    Err(FindError::Steps)
}
