//! The dictionary of a first basis.
ghost use Rattle.std.specs.Prelude.{◌<◌};
ghost use Rattle.md_lp.specs.Program.{row_count};

use crate::basis::{Basis, Sides, is_turned, needs_start};
use crate::dictionary::Dictionary;
use md_find_rows::{Row, Table};
use md_lp::{Lp, RowKind};
use md_num::NoMemory;
use std::alloc::Global;

/// The dictionary of a first basis.
pub fn first_dictionary(alloc: Global, lp: &Lp, sides: Sides) -> Result<Dictionary, NoMemory> {
    let basis = Basis::new(alloc, lp, sides)?;
    let table = first_table(alloc, lp, &basis)?;
    Ok(Dictionary::new(table, lp.rows() as usize, basis))
}

// The program rows, the face row and the main row.
fn first_table(alloc: Global, lp: &Lp, basis: &Basis) -> Result<Table, NoMemory> {
    let mut table = Table::new(alloc);
    let mut face = Row::zeros(alloc, basis.kept().saturating_add(1))?;
    push_program_rows(alloc, lp, basis, &mut table, &mut face)?;
    table.push(face)?;
    let main = main_row(alloc, lp, basis)?;
    table.push(main)?;
    Ok(table)
}

// Appends the program rows. Where sides are turned, those that need a start column are taken from the face row.
fn push_program_rows(
    alloc: Global,
    lp: &Lp,
    basis: &Basis,
    table: &mut Table,
    face: &mut Row,
) -> Result<(), NoMemory> {
    let mut spare = Row::zeros(alloc, basis.kept().saturating_add(1))?;
    let mut slack = lp.columns() as usize;
    for number in 0..lp.rows() {
        let mut row = program_row(alloc, lp, basis, number)?;
        if lp.kind(number) == RowKind::AtMost {
            put_at(basis, &mut row, slack, -1);
            slack = slack.saturating_add(1);
        }
        if basis.sides() == Sides::Turned && needs_start(lp, number, Sides::Turned) {
            face.subtract(&row, &mut spare);
        }
        table.push(row)?;
    }
    Ok(())
}

// Writes the number of a column, where it is kept.
fn put_at(basis: &Basis, row: &mut Row, column: usize, number: i128) {
    if let Some(place) = basis.place(column) {
        row.put(place, number);
    }
}

// The program columns and the right side of a program row, multiplied by -1 where the row is turned.
fn program_row(alloc: Global, lp: &Lp, basis: &Basis, number: u32) -> Result<Row, NoMemory>
    requires { number < row_count lp.now }
{
    let turned = is_turned(lp, number, basis.sides());
    let mut row = Row::zeros(alloc, basis.kept().saturating_add(1))?;
    for place in 0..lp.term_count(number) {
        let term = lp.term(number, place);
        put_at(
            basis,
            &mut row,
            term.column as usize,
            signed(turned, term.value),
        );
    }
    row.put(basis.kept(), signed(turned, lp.right(number)));
    Ok(row)
}

// The main row: minus the cost.
fn main_row(alloc: Global, lp: &Lp, basis: &Basis) -> Result<Row, NoMemory> {
    let mut row = Row::zeros(alloc, basis.kept().saturating_add(1))?;
    for column in 0..lp.columns() {
        put_at(
            basis,
            &mut row,
            column as usize,
            signed(true, lp.cost(column)),
        );
    }
    Ok(row)
}

// A number, or its negative.
fn signed(negative: bool, number: i128) -> i128 {
    if negative {
        number.wrapping_neg()
    } else {
        number
    }
}
