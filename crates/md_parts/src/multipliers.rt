//! The records of multipliers, read and written.
ghost use Rattle.std.specs.Prelude.{◌≡◌, ◌≢◌, ◌<◌, ◌≤◌, ◌+◌, ◌-◌, ◌^◌, ◌++◌, ◌∷◌, ℕ, ℤ, pos, List, Ok, Err, [], false, length, replicate, codes, OnOk, IfOk, IfErr, MatchResult};
ghost use Rattle.std.specs.List.{list_all};
ghost use Rattle.std.specs.Ordering.{int_eq};
ghost use Rattle.md_math.specs.Lists.{number_at, up_to};
ghost use Rattle.md_parts.specs.Reading.{read_record};
ghost use Rattle.md_parts.specs.Repeated.{comes_next};
ghost use Rattle.md_parts.specs.Multipliers.{row_fields, row_records, numbers_for, face_of, bound_denominator, bound_of};
ghost use Rattle.md_parts.specs.Fitting.{AreMultipliers, IsBoundOver};
ghost use Rattle.md_parts.specs.Rows.{number_row, row_unless_zero, face_rows, bound_rows};
ghost use Rattle.md_parts.specs.Written.{IsWrittenBefore};

use crate::AnswerRefusal;
use crate::numbers::{push_numbers, with_numbers};
use crate::range::Range;
use crate::reader::Reader;
use md_cert::Bound;
use md_num::{NoMemory, Nums};
use md_records::Row;
use std::alloc::Global;

// The record of a row: which row it is, and its multipliers.
#[derive(Drop)]
struct RowRecord {
    row: usize,
    multipliers: Nums,
}

// A face and a main multiplier for each row.
#[derive(Drop)]
struct Multipliers {
    face: Nums,
    main: Nums,
}

// Adds zeros to a list until it has so many numbers.
fn fill(numbers: &mut Nums, count: usize) -> Result<(), AnswerRefusal>
    requires { length numbers.old ≤ count }
    ensures ok { OnOk result (numbers.new ≡ numbers.old ++ replicate (count - length numbers.old) (pos 0)) }
    ensures memory { IfErr result (λ refusal. refusal ≡ AnswerRefusal.Memory) }
{
    for place in numbers.len()..count {
        let _ = place;
        numbers.push(0)?;
    }
    Ok(())
}

// Puts a number at a place past the end of a list, with zeros before it.
fn put_at(numbers: &mut Nums, place: usize, number: i128) -> Result<(), AnswerRefusal>
    requires { length numbers.old ≤ place }
    ensures ok { OnOk result (numbers.new ≡ (numbers.old ++ replicate (place - length numbers.old) (pos 0)) ++ number ∷ []) }
    ensures memory { IfErr result (λ refusal. refusal ≡ AnswerRefusal.Memory) }
{
    fill(numbers, place)?;
    numbers.push(number)?;
    Ok(())
}

// The number at a place, 0 past the end.
fn number_or_zero(numbers: &Nums, place: usize) -> i128
    ensures { result ≡ number_at numbers.now place }
{
    if place < numbers.len() {
        numbers.get(place)
    } else {
        0
    }
}

// The record of a row that is not before a given one, with so many multipliers.
fn read_row(
    alloc: Global,
    reader: &mut Reader,
    least: usize,
    rows: u32,
    count: usize,
) -> Result<RowRecord, AnswerRefusal>
    requires { count ≤ 2 }
    ensures read { MatchResult result
        (λ found. read_record (codes "row") (row_fields rows count least) reader.old ≡ Ok (pos found.row ∷ found.multipliers, reader.new))
        (λ refusal. refusal ≢ AnswerRefusal.Memory → read_record (codes "row") (row_fields rows count least) reader.old ≡ Err refusal) }
    ensures row { IfOk result (λ found. (least ≤ found.row) × (found.row < rows)) }
{
    let mut fields = reader.next("row", 1 + count)?;
    let row = fields.place(least as u64, rows as u64)?;
    let mut multipliers = Nums::new(alloc);
    fields.numbers(count, Range::Any, &mut multipliers)?;
    Ok(RowRecord {
        row: row as usize,
        multipliers,
    })
}

// The records of rows, with so many multipliers each: the multipliers of all rows.
fn read_rows(
    alloc: Global,
    reader: &mut Reader,
    rows: u32,
    count: usize,
) -> Result<Multipliers, AnswerRefusal>
    requires { count ≤ 2 }
    ensures { MatchResult result
        (λ found. (records : List (List ℤ)) × (row_records rows count reader.old ≡ Ok (records, reader.new))
        × (found.face ≡ numbers_for 1 rows records) × (found.main ≡ numbers_for 2 rows records))
        (λ refusal. refusal ≢ AnswerRefusal.Memory → row_records rows count reader.old ≡ Err refusal) }
{
    let mut face = Nums::new(alloc);
    let mut main = Nums::new(alloc);
    while reader.comes_next("row") {
        let found = read_row(alloc, reader, face.len(), rows, count)?;
        put_at(&mut face, found.row, number_or_zero(&found.multipliers, 0))?;
        put_at(&mut main, found.row, number_or_zero(&found.multipliers, 1))?;
    }
    fill(&mut face, rows as usize)?;
    fill(&mut main, rows as usize)?;
    Ok(Multipliers { face, main })
}

/// The face multipliers alone.
///
/// # Errors
/// The first record that may not stand there or has a wrong field, or that memory ran out.
#[tactic(auto, using(crate::proofs::PartsRead::known))]
pub fn read_face(alloc: Global, reader: &mut Reader, rows: u32) -> Result<Nums, AnswerRefusal>
    ensures read { MatchResult result
        (λ face. face_of rows reader.old ≡ Ok (face, reader.new))
        (λ refusal. refusal ≢ AnswerRefusal.Memory → face_of rows reader.old ≡ Err refusal) }
    ensures sizes { IfOk result (AreMultipliers rows) }
{
    let Multipliers { face, main: _ } = read_rows(alloc, reader, rows, 1)?;
    Ok(face)
}

// The denominator of main multipliers.
fn read_bound_denominator(reader: &mut Reader) -> Result<i128, AnswerRefusal>
    ensures { MatchResult result
        (λ den. bound_denominator reader.old ≡ Ok (den, reader.new))
        (λ refusal. refusal ≢ AnswerRefusal.Memory → bound_denominator reader.old ≡ Err refusal) }
{
    let mut fields = reader.next("bound", 1)?;
    fields.number(62, Range::FromOne)
}

/// Both kinds of multipliers.
///
/// # Errors
/// The first record that may not stand there or has a wrong field, or that memory ran out.
#[tactic(auto, using(crate::proofs::PartsRead::known))]
pub fn read_bound(alloc: Global, reader: &mut Reader, rows: u32) -> Result<Bound, AnswerRefusal>
    ensures read { MatchResult result
        (λ bound. bound_of rows reader.old ≡ Ok (bound, reader.new))
        (λ refusal. refusal ≢ AnswerRefusal.Memory → bound_of rows reader.old ≡ Err refusal) }
    ensures sizes { IfOk result (IsBoundOver rows) }
{
    let den = read_bound_denominator(reader)?;
    let Multipliers { face, main } = read_rows(alloc, reader, rows, 2)?;
    Ok(Bound { den, main, face })
}

// Whether all numbers are 0.
fn are_zeros(numbers: &[i128]) -> bool
    ensures { result ≡ list_all (int_eq (pos 0)) numbers.now }
{
    numbers.iter().all(|number| 0 == *number)
}

/// Adds the record of a row with its multipliers, unless all of them are 0.
pub(crate) fn push_row(
    alloc: Global,
    to: &mut Vec<Row>,
    row: u32,
    multipliers: &[i128],
) -> Result<(), NoMemory>
    ensures { OnOk result (to.new.items ≡ to.old.items ++ row_unless_zero row multipliers.now) }
{
    if are_zeros(multipliers) {
        return Ok(());
    }
    let named = Row::new(alloc).with(b"row")?.with_number(i128::from(row))?;
    to.push(with_numbers(named, multipliers)?)?;
    Ok(())
}

/// Adds the records of face multipliers alone.
///
/// # Errors
/// Want of memory.
#[tactic(auto, using(crate::proofs::WrittenParts::laws))]
pub fn push_face(alloc: Global, to: &mut Vec<Row>, rows: u32, face: &Nums) -> Result<(), NoMemory>
    requires { AreMultipliers rows face.now }
    ensures rows { OnOk result (to.new.items ≡ to.old.items ++ face_rows rows face.now) }
    ensures reads_back { (others : List (List (List ℕ))) → comes_next (codes "row") others ≡ false → IsWrittenBefore others (face_of rows) (face_rows rows face.now) face.now }
{
    for row in 0..rows {
        push_row(alloc, to, row, &[face.get(row as usize)])?;
    }
    Ok(())
}

/// Adds the records of both kinds of multipliers.
///
/// # Errors
/// Want of memory.
#[tactic(auto, using(crate::proofs::WrittenParts::laws))]
pub fn push_bound(
    alloc: Global,
    to: &mut Vec<Row>,
    rows: u32,
    bound: &Bound,
) -> Result<(), NoMemory>
    requires { IsBoundOver rows bound.now }
    ensures rows { OnOk result (to.new.items ≡ to.old.items ++ bound_rows rows bound.now) }
    ensures reads_back { (others : List (List (List ℕ))) → comes_next (codes "row") others ≡ false → IsWrittenBefore others (bound_of rows) (bound_rows rows bound.now) bound.now }
{
    push_numbers(alloc, to, "bound", &[bound.den])?;
    for row in 0..rows {
        let place = row as usize;
        push_row(
            alloc,
            to,
            row,
            &[bound.face.get(place), bound.main.get(place)],
        )?;
    }
    Ok(())
}
