//! The leap over the bases that a walk would make feasible one by one.
ghost use Rattle.std.specs.Prelude.{◌<◌};
ghost use Rattle.md_lp.specs.Program.{row_count};

use crate::dictionary::Dictionary;
use crate::dual::{Repair, dual_walk};
use crate::find_error::FindError;
use md_find_rows::Row;
use md_lp::{Lp, RowKind};
use md_num::NoMemory;
use std::alloc::Global;

// The kept place of the column of a term of an exact row, where the row has a positive number there now. Of another row, or where it has no such term, there is none.
fn place_of(lp: &Lp, dictionary: &Dictionary, row: u32, term: u32) -> Option<usize>
    requires { row < row_count lp.now }
{
    if lp.kind(row) == RowKind::AtMost || term >= lp.term_count(row) {
        return None;
    }
    let place = dictionary
        .basis()
        .place(lp.term(row, term).column as usize)?;
    if dictionary.number(row as usize, place) > 0 {
        Some(place)
    } else {
        None
    }
}

/// Makes the column of one term basic in each exact row: in the program of a setting, the chance of one outcome at each profile. Then no right side is negative, or they are repaired.
///
/// # Errors
/// Where a row is too wide or too many pivots are made; or want of memory.
pub fn leap(
    alloc: Global,
    lp: &Lp,
    dictionary: &mut Dictionary,
    term: u32,
) -> Result<Repair, FindError> {
    for row in 0..lp.rows() {
        if let Some(place) = place_of(lp, dictionary, row, term) {
            dictionary.pivot(alloc, row as usize, place)?;
        }
    }
    if dictionary.is_feasible() {
        return Ok(Repair::Feasible);
    }
    guided_walk(alloc, dictionary)
}

// Repairs negative right sides, guided by a row of numbers that have nothing to do with the program.
fn guided_walk(alloc: Global, dictionary: &mut Dictionary) -> Result<Repair, FindError> {
    let guide = guide_row(alloc, dictionary)?;
    dictionary.push_guide(guide)?;
    let row = dictionary.guide();
    let end = dual_walk(alloc, dictionary, row)?;
    dictionary.pop_guide();
    Ok(end)
}

// The first number of the generator of guiding numbers, its factor, and what it adds.
const FIRST_STATE: u32 = 1;

const STATE_FACTOR: u32 = 1_664_525;

const STATE_STEP: u32 = 1_013_904_223;

// The next state of the generator.
fn next_state(state: u32) -> u32 {
    state.wrapping_mul(STATE_FACTOR).wrapping_add(STATE_STEP)
}

// The guiding number of a state: from 1,024 to 2,047.
fn guiding_number(state: u32) -> i128 {
    1024 + i128::from(state >> 22u32)
}

// A row with a guiding number at each column that is kept and may enter.
fn guide_row(alloc: Global, dictionary: &Dictionary) -> Result<Row, NoMemory> {
    let kept = dictionary.basis().kept();
    let mut row = Row::zeros(alloc, kept.saturating_add(1))?;
    let mut state = FIRST_STATE;
    for place in 0..kept {
        if !dictionary.basis().has_start_at(place) {
            state = next_state(state);
            row.put(place, guiding_number(state));
        }
    }
    Ok(row)
}
