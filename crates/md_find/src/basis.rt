//! Which columns are basic, and where the others stand.
ghost use Rattle.std.specs.Prelude.{◌<◌};
ghost use Rattle.md_lp.specs.Program.{row_count};

use crate::likeness::leading_columns;
use md_lp::{Lp, RowKind};
use md_num::NoMemory;
use std::alloc::Global;

/// What becomes of the at-most rows with a negative right side in a first basis.
#[derive(Clone, Copy, PartialEq, Eq)]
pub enum Sides {
    /// They are multiplied by -1 and have a start column, so that no right side is negative.
    Turned,
    /// They stay as they are, and have their slack.
    Kept,
}

/// The columns at the kept places and then those of the basis, one for each row. A column is one of the program, the slack of a row, or a start column. Program columns that are left out are at no place, since another one stands for each of them.
#[derive(Drop)]
pub struct Basis {
    sides: Sides,
    columns: usize,
    kept: usize,
    order: Vec<usize>,
    seat: Vec<usize>,
    units: Vec<usize>,
}

// Where a column stands that is left out.
const NOWHERE: usize = usize::MAX;

// The columns of the first basis, while they are numbered row by row.
#[derive(Drop)]
struct Numbering {
    sides: Sides,
    kept: Vec<usize>,
    units: Vec<usize>,
    slack: usize,
    start: usize,
}

/// Whether a row is multiplied by -1 in a first basis: where its right side is negative, and sides are turned or the row is exact.
pub fn is_turned(lp: &Lp, row: u32, sides: Sides) -> bool
    requires { row < row_count lp.now }
{
    lp.right(row) < 0 && (sides == Sides::Turned || lp.kind(row) == RowKind::Exact)
}

/// Whether a first basis has a start column for a row: where the row has no slack, or is turned.
pub fn needs_start(lp: &Lp, row: u32, sides: Sides) -> bool
    requires { row < row_count lp.now }
{
    lp.kind(row) == RowKind::Exact || is_turned(lp, row, sides)
}

impl Numbering {
    // Gives a row its columns. A slack that is not basic is kept.
    fn add_row(&mut self, lp: &Lp, row: u32) -> Result<(), NoMemory>
        requires { row < row_count lp.now }
    {
        let needs_start = needs_start(lp, row, self.sides);
        if needs_start {
            self.units.push(self.start)?;
            self.start = self.start.saturating_add(1);
        } else {
            self.units.push(self.slack)?;
        }
        if lp.kind(row) == RowKind::AtMost {
            if needs_start {
                self.kept.push(self.slack)?;
            }
            self.slack = self.slack.saturating_add(1);
        }
        Ok(())
    }
}

// How many program and slack columns there are.
fn column_count(lp: &Lp) -> usize {
    let mut columns = lp.columns() as usize;
    for row in 0..lp.rows() {
        if lp.kind(row) == RowKind::AtMost {
            columns = columns.saturating_add(1);
        }
    }
    columns
}

// The program columns that are not left out.
fn program_columns(alloc: Global, lp: &Lp) -> Result<Vec<usize>, NoMemory> {
    let leads = leading_columns(alloc, lp)?;
    let mut columns = Vec::new(alloc);
    for column in 0..leads.len() {
        if leads[column] {
            columns.push(column)?;
        }
    }
    Ok(columns)
}

// The columns of the first basis.
fn number_columns(alloc: Global, lp: &Lp, sides: Sides) -> Result<Numbering, NoMemory> {
    let mut numbering = Numbering {
        sides,
        kept: program_columns(alloc, lp)?,
        units: Vec::new(alloc),
        slack: lp.columns() as usize,
        start: column_count(lp),
    };
    for row in 0..lp.rows() {
        numbering.add_row(lp, row)?;
    }
    Ok(numbering)
}

// One list behind another.
fn joined(alloc: Global, first: &[usize], second: &[usize]) -> Result<Vec<usize>, NoMemory> {
    let mut numbers = Vec::from_slice(alloc, first)?;
    for number in second {
        numbers.push(*number)?;
    }
    Ok(numbers)
}

// At which place each of so many columns stands.
fn seats(alloc: Global, order: &[usize], count: usize) -> Result<Vec<usize>, NoMemory> {
    let mut seat = vec![in alloc; NOWHERE; count]?;
    for place in 0..order.len() {
        let column = order[place];
        if column < seat.len() {
            seat[column] = place;
        }
    }
    Ok(seat)
}

impl Basis {
    /// A first basis: of each row the slack, or a start column where it needs one.
    pub fn new(alloc: Global, lp: &Lp, sides: Sides) -> Result<Basis, NoMemory> {
        let numbering = number_columns(alloc, lp, sides)?;
        let order = joined(alloc, numbering.kept.as_slice(), numbering.units.as_slice())?;
        Ok(Basis {
            sides,
            columns: column_count(lp),
            kept: numbering.kept.len(),
            seat: seats(alloc, order.as_slice(), numbering.start)?,
            order,
            units: numbering.units,
        })
    }

    /// What became of negative right sides in the first basis.
    pub fn sides(&self) -> Sides {
        self.sides
    }

    /// How many program and slack columns there are.
    pub fn columns(&self) -> usize {
        self.columns
    }

    /// How many columns are not basic.
    pub fn kept(&self) -> usize {
        self.kept
    }

    /// Where a column stands: below the number of kept places at one of them, then in the basis, and past all places where it is left out.
    pub fn seat(&self, column: usize) -> usize {
        if column < self.seat.len() {
            self.seat[column]
        } else {
            NOWHERE
        }
    }

    /// The kept place of a column that is not basic.
    pub fn place(&self, column: usize) -> Option<usize> {
        let seat = self.seat(column);
        if seat < self.kept { Some(seat) } else { None }
    }

    /// The row of a column that is basic.
    pub fn row(&self, column: usize) -> Option<usize> {
        let seat = self.seat(column);
        if seat < self.order.len() {
            seat.checked_sub(self.kept)
        } else {
            None
        }
    }

    /// The column that a row had in the first basis.
    pub fn unit(&self, row: usize) -> usize {
        if row < self.units.len() {
            self.units[row]
        } else {
            NOWHERE
        }
    }

    /// Whether a row still has the column of the first basis.
    pub fn has_unit(&self, row: usize) -> bool {
        self.row(self.unit(row)) == Some(row)
    }

    /// Whether a column is a start column.
    pub fn is_start(&self, column: usize) -> bool {
        column >= self.columns
    }

    /// Whether a start column stands at a place.
    pub fn has_start_at(&self, place: usize) -> bool {
        place < self.order.len() && self.is_start(self.order[place])
    }

    /// Lets the column at a place and the one that is basic at a row change places. It answers whether there are such.
    pub fn exchange(&mut self, row: usize, place: usize) -> bool {
        let other = self.kept.saturating_add(row);
        if place >= self.order.len() || other >= self.order.len() {
            return false;
        }
        let entering = self.order[place];
        let leaving = self.order[other];
        if entering >= self.seat.len() || leaving >= self.seat.len() {
            return false;
        }
        self.order[place] = leaving;
        self.order[other] = entering;
        self.seat[leaving] = place;
        self.seat[entering] = other;
        true
    }
}
