//! A basis of a program, as a file lists it.
ghost use Rattle.std.specs.Prelude.{◌≡◌, ◌≢◌, ◌++◌, ◌∷◌, [], Ok, Err, MatchResult, OnOk};
ghost use Rattle.md_find_basis.specs.Basis.{basis_of, listed_as, one_more, with_more, with_next};

use md_num::NoMemory;
use md_parts::{AnswerRefusal, Reader, read_last};
use std::alloc::Global;
use std::marker::Model;

/// Which columns of a program are basic, and of which rows the slack is, or the start column of an exact row.
#[derive(Drop)]
pub struct Basis {
    columns: Vec<u32>,
    slacks: Vec<u32>,
}

impl Model for Basis {
    ghost use Rattle.md_find_basis.specs.Basis.{Listed};

    ghost Value = { Listed };

    ghost view = { λ basis. record { columns = basis.columns.items; slacks = basis.slacks.items } };
}

// Appends a number.
fn append(list: &mut Vec<u32>, number: u32) -> Result<(), NoMemory>
    ensures { OnOk result (list.new.items ≡ list.old.items ++ number ∷ []) }
{
    list.push(number)?;
    Ok(())
}

// The record of a number below so many that was not listed before, which is listed.
fn read_listed(
    reader: &mut Reader,
    word: &str,
    below: u32,
    listed: &mut Vec<u32>,
) -> Result<(), AnswerRefusal>
    ensures { MatchResult result
        (λ _. one_more word.now below listed.old.items reader.old ≡ Ok (listed.new.items, reader.new))
        (λ refusal. refusal ≢ AnswerRefusal.Memory → one_more word.now below listed.old.items reader.old ≡ Err refusal) }
{
    let mut fields = reader.next(word, 1)?;
    let number = fields.free_place(0, below, listed.as_slice())?;
    append(listed, number)?;
    Ok(())
}

// The next record, which is listed: a column of the program, or else the slack of a row.
fn read_next(
    reader: &mut Reader,
    columns: u32,
    rows: u32,
    basics: &mut Vec<u32>,
    slacks: &mut Vec<u32>,
) -> Result<(), AnswerRefusal>
    ensures { MatchResult result
        (λ _. with_next columns rows (listed_as basics.old.items slacks.old.items) reader.old ≡ Ok (listed_as basics.new.items slacks.new.items, reader.new))
        (λ refusal. refusal ≢ AnswerRefusal.Memory → with_next columns rows (listed_as basics.old.items slacks.old.items) reader.old ≡ Err refusal) }
{
    if reader.comes_next("column") {
        read_listed(reader, "column", columns, basics)
    } else {
        read_listed(reader, "slack", rows, slacks)
    }
}

// One record for each row.
fn read_records(
    alloc: Global,
    reader: &mut Reader,
    columns: u32,
    rows: u32,
) -> Result<Basis, AnswerRefusal>
    ensures { MatchResult result
        (λ basis. with_more columns rows rows (listed_as [] []) reader.old ≡ Ok (basis, reader.new))
        (λ refusal. refusal ≢ AnswerRefusal.Memory → with_more columns rows rows (listed_as [] []) reader.old ≡ Err refusal) }
{
    let mut basics = Vec::new(alloc);
    let mut slacks = Vec::new(alloc);
    for row in 0..rows {
        let _ = row;
        read_next(reader, columns, rows, &mut basics, &mut slacks)?;
    }
    Ok(Basis {
        columns: basics,
        slacks,
    })
}

impl Basis {
    /// The basic columns of the program.
    pub fn columns(&self) -> &[u32]
        ensures { result.now ≡ self.now.columns }
    {
        self.columns.as_slice()
    }

    /// The rows whose slack or start column is basic.
    pub fn slacks(&self) -> &[u32]
        ensures { result.now ≡ self.now.slacks }
    {
        self.slacks.as_slice()
    }
}

/// Reads a basis of a program with so many columns and rows: a record for each row, and the end. Whether the columns depend on each other is not tried.
///
/// # Errors
/// The first record that may not stand there or has a wrong field, that too few stand there, or want of memory.
pub fn read_basis(
    alloc: Global,
    bytes: &[u8],
    columns: u32,
    rows: u32,
) -> Result<Basis, AnswerRefusal>
    ensures { MatchResult result
        (λ basis. basis_of columns rows bytes.now ≡ Ok basis)
        (λ refusal. refusal ≢ AnswerRefusal.Memory → basis_of columns rows bytes.now ≡ Err refusal) }
{
    let mut reader = Reader::new(alloc, bytes)?;
    let basis = read_records(alloc, &mut reader, columns, rows)?;
    read_last(&mut reader)?;
    Ok(basis)
}
