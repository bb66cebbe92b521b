//! The records of a program.
ghost use Rattle.std.specs.Prelude.{◌≡◌, ◌<◌, IfOk, length};
ghost use Rattle.md_mech.specs.Rows.{conditions_of};
ghost use Rattle.md_lp.specs.Program.{row_count};
ghost use Rattle.md_cli_lp.specs.ProgramTexts.{IsListing, names_of, program_record, program_records, program_text, row_head, row_record, texts_of, word_of};

use crate::pairs::{with_costs, with_terms};
use md_lp::{Lp, RowKind};
use md_mech::row_name;
use md_num::NoMemory;
use md_records::{Row, write_records};
use md_rows::rows_of;
use md_setting::Setting;
use std::alloc::Global;

/// The linear program of a setting as a text of records: its size, its cost, a record for each row with its name, kind,
/// right side and the columns whose coefficients are not 0, and an end. docs/FORMATS.md states them.
pub(crate) fn list_program(alloc: Global, setting: &Setting) -> Result<Vec<u8>, NoMemory>
    ensures { IfOk result (λ text. IsListing setting.now text.items) }
{
    let lp = rows_of(alloc, setting)?;
    let names = names(alloc, setting, lp.rows())?;
    list_rows(alloc, &lp, &names)
}

/// Any linear program as such a text, where each row has its name.
pub(crate) fn list_rows(alloc: Global, lp: &Lp, names: &[Vec<u8>]) -> Result<Vec<u8>, NoMemory>
    requires { length names.now ≡ row_count lp.now }
    ensures { IfOk result (λ text. text.items ≡ program_text lp.now (texts_of names.now)) }
{
    let records = records(alloc, lp, names)?;
    write_records(alloc, &records)
}

// The names of a setting's conditions.
fn names(alloc: Global, setting: &Setting, rows: u32) -> Result<Vec<Vec<u8>>, NoMemory>
    requires { rows ≡ length (conditions_of setting.now) }
    ensures { IfOk result (λ names. texts_of names.items ≡ names_of setting.now) }
{
    let mut names = Vec::new(alloc);
    for row in 0..rows {
        names.push(row_name(alloc, setting, row)?)?;
    }
    Ok(names)
}

// All records of a program.
fn records(alloc: Global, lp: &Lp, names: &[Vec<u8>]) -> Result<Vec<Row>, NoMemory>
    requires { length names.now ≡ row_count lp.now }
    ensures { IfOk result (λ records. records.items ≡ program_records lp.now (texts_of names.now)) }
{
    let mut records = Vec::new(alloc);
    records.push(size_record(alloc, lp)?)?;
    records.push(with_costs(Row::new(alloc).with(b"cost")?, lp)?)?;
    for row in 0..lp.rows() {
        records.push(row_record(alloc, lp, row, &names[row as usize])?)?;
    }
    records.push(Row::new(alloc).with(b"end")?)?;
    Ok(records)
}

// How many columns and rows there are.
fn size_record(alloc: Global, lp: &Lp) -> Result<Row, NoMemory>
    ensures { IfOk result (λ fields. fields ≡ program_record lp.now) }
{
    Row::new(alloc)
        .with(b"program")?
        .with_number(i128::from(lp.columns()))?
        .with_number(i128::from(lp.rows()))
}

// The word for what a row demands.
fn word(kind: RowKind) -> &'static [u8]
    ensures { result.now ≡ word_of kind }
{
    match kind {
        RowKind::AtMost => b"atmost",
        RowKind::Exact => b"exact",
    }
}

// What stands before the pairs of a row.
fn head_record(alloc: Global, lp: &Lp, row: u32, name: &[u8]) -> Result<Row, NoMemory>
    requires { row < row_count lp.now }
    ensures { IfOk result (λ fields. fields ≡ row_head lp.now row name.now) }
{
    Row::new(alloc)
        .with(b"row")?
        .with_number(i128::from(row))?
        .with(name)?
        .with(word(lp.kind(row)))?
        .with_number(lp.right(row))
}

// The record of a row.
fn row_record(alloc: Global, lp: &Lp, row: u32, name: &[u8]) -> Result<Row, NoMemory>
    requires { row < row_count lp.now }
    ensures { IfOk result (λ fields. fields ≡ row_record lp.now row name.now) }
{
    let head = head_record(alloc, lp, row, name)?;
    let filled = with_terms(head, lp, row)?;
    Ok(filled)
}
