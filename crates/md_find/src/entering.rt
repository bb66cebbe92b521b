//! The column that enters a basis.
ghost use Rattle.std.specs.Prelude.{◌<◌};

use crate::dictionary::Dictionary;

/// Which row asks for a column.
#[derive(Clone, Copy)]
pub enum Phase {
    /// The face row, where it has a negative number.
    Face,
    /// The main row, where the face row has 0 and it has a negative number.
    Main,
}

// Whether the column at a place may enter.
fn may_enter(dictionary: &Dictionary, phase: Phase, place: usize) -> bool {
    let face = dictionary.number(dictionary.rows(), place);
    match phase {
        Phase::Face => face < 0,
        Phase::Main => {
            face == 0 && dictionary.number(dictionary.rows().saturating_add(1), place) < 0
        }
    }
}

// The place of a column, if it is not basic and may enter.
fn candidate(dictionary: &Dictionary, phase: Phase, column: usize) -> Option<usize> {
    let place = dictionary.basis().place(column)?;
    if may_enter(dictionary, phase, place) {
        Some(place)
    } else {
        None
    }
}

// The column at a place of the order, which has the greatest first.
fn column_at(columns: usize, place: usize) -> usize
    requires { place < columns }
{
    columns - 1 - place
}

/// The place of the greatest column that may enter, if one may. Start columns never enter.
pub fn entering_place(dictionary: &Dictionary, phase: Phase) -> Option<usize> {
    let columns = dictionary.basis().columns();
    for place in 0..columns {
        if let Some(found) = candidate(dictionary, phase, column_at(columns, place)) {
            return Some(found);
        }
    }
    None
}
