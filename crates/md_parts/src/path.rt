//! The records of paths of pivots, each with an entry that is too wide at its end, read and written.
ghost use Rattle.std.specs.Prelude.{◌≡◌, ◌≢◌, ◌++◌, ◌∷◌, ℕ, pos, List, [], false, map, Ok, Err, codes, IfSome, IfOk, OnOk, MatchResult, All};
ghost use Rattle.md_parts.specs.Reading.{read_record};
ghost use Rattle.md_parts.specs.Repeated.{comes_next};
ghost use Rattle.md_parts.specs.Path.{pivot_fields, path_of, entry_of, wide_of, second_of, version_with};
ghost use Rattle.md_parts.specs.Fitting.{IsFraction, IsTablePlace, HasFraction, HasWidePlaces};
ghost use Rattle.md_parts.specs.Rows.{pivot_row, entry_row, wide_rows, second_rows};
ghost use Rattle.md_parts.specs.Written.{IsWrittenBefore};

use crate::AnswerRefusal;
use crate::numbers::push_numbers;
use crate::range::Range;
use crate::reader::Reader;
use crate::version::Version;
use md_lp::{Entry, Path, Pivot, Wide};
use md_num::NoMemory;
use md_records::Row;
use std::alloc::Global;

// The record of a pivot.
fn read_pivot(reader: &mut Reader) -> Result<Pivot, AnswerRefusal>
    ensures { MatchResult result
        (λ pivot. read_record (codes "pivot") (pivot_fields tt) reader.old ≡ Ok (pos pivot.row ∷ pos pivot.column ∷ [], reader.new))
        (λ refusal. refusal ≢ AnswerRefusal.Memory → read_record (codes "pivot") (pivot_fields tt) reader.old ≡ Err refusal) }
{
    let mut fields = reader.next("pivot", 2)?;
    let (row, column) = fields.table_place()?;
    Ok(Pivot { row, column })
}

/// The records of pivots, as many as there are.
///
/// # Errors
/// The first record that may not stand there or has a wrong field, or that memory ran out.
#[tactic(auto, using(crate::proofs::PartsRead::known))]
pub fn read_path(alloc: Global, reader: &mut Reader) -> Result<Path, AnswerRefusal>
    ensures read { MatchResult result
        (λ path. path_of reader.old ≡ Ok (path, reader.new))
        (λ refusal. refusal ≢ AnswerRefusal.Memory → path_of reader.old ≡ Err refusal) }
    ensures places { IfOk result (All (λ pivot. IsTablePlace pivot.row pivot.column)) }
{
    let mut path = Path::new(alloc);
    while reader.comes_next("pivot") {
        let pivot = read_pivot(reader)?;
        path.push(pivot)?;
    }
    Ok(path)
}

/// The record of an entry with its place and its denominator.
///
/// # Errors
/// The first record that may not stand there or has a wrong field, or that memory ran out.
#[tactic(auto, using(crate::proofs::PartsRead::known))]
pub fn read_entry(reader: &mut Reader) -> Result<Entry, AnswerRefusal>
    ensures read { MatchResult result
        (λ entry. entry_of reader.old ≡ Ok (entry, reader.new))
        (λ refusal. refusal ≢ AnswerRefusal.Memory → entry_of reader.old ≡ Err refusal) }
    ensures known { IfOk result (λ entry. IsFraction entry.num entry.den × IsTablePlace entry.row entry.column) }
{
    let mut fields = reader.next("wide", 4)?;
    let (row, column) = fields.table_place()?;
    let (num, den) = fields.pair(126, Range::Any, Range::FromOne)?;
    Ok(Entry {
        row,
        column,
        num,
        den,
    })
}

/// The records of a path, and of the entry at its end.
///
/// # Errors
/// The first record that may not stand there or has a wrong field, or that memory ran out.
#[tactic(auto, using(crate::proofs::PartsRead::known))]
pub fn read_wide(alloc: Global, reader: &mut Reader) -> Result<Wide, AnswerRefusal>
    ensures read { MatchResult result
        (λ wide. wide_of reader.old ≡ Ok (wide, reader.new))
        (λ refusal. refusal ≢ AnswerRefusal.Memory → wide_of reader.old ≡ Err refusal) }
    ensures known { IfOk result (λ wide. HasFraction wide × HasWidePlaces wide) }
{
    let path = read_path(alloc, reader)?;
    let entry = read_entry(reader)?;
    Ok(Wide { path, entry })
}

/// The part about the second path, which stands in the second version.
///
/// # Errors
/// The first record that may not stand there or has a wrong field, or that memory ran out.
#[tactic(auto, using(crate::proofs::PartsRead::known))]
pub fn read_second(
    alloc: Global,
    reader: &mut Reader,
    version: Version,
) -> Result<Option<Wide>, AnswerRefusal>
    ensures read { MatchResult result
        (λ second. second_of version reader.old ≡ Ok (second, reader.new))
        (λ refusal. refusal ≢ AnswerRefusal.Memory → second_of version reader.old ≡ Err refusal) }
    ensures known { IfOk result (λ second. IfSome second HasFraction × IfSome second HasWidePlaces) }
{
    match version {
        Version::One => Ok(None),
        Version::Two => {
            let _ = reader.next("again", 0)?;
            let second = read_wide(alloc, reader)?;
            Ok(Some(second))
        }
    }
}

/// Adds the records of pivots.
///
/// # Errors
/// Want of memory.
#[tactic(auto, using(crate::proofs::WrittenParts::laws))]
pub fn push_path(alloc: Global, to: &mut Vec<Row>, path: &Path) -> Result<(), NoMemory>
    ensures rows { OnOk result (to.new.items ≡ to.old.items ++ map pivot_row path.now) }
    ensures places { OnOk result (All (λ pivot. IsTablePlace pivot.row pivot.column) path.now) }
    ensures reads_back { (others : List (List (List ℕ))) → All (λ pivot. IsTablePlace pivot.row pivot.column) path.now → comes_next (codes "pivot") others ≡ false → IsWrittenBefore others path_of (map pivot_row path.now) path.now }
{
    for pivot in path.as_slice() {
        let numbers = [i128::from(pivot.row), i128::from(pivot.column)];
        push_numbers(alloc, to, "pivot", &numbers)?;
    }
    Ok(())
}

/// Adds the record of an entry.
///
/// # Errors
/// Want of memory.
#[tactic(auto, using(crate::proofs::WrittenParts::laws))]
pub fn push_entry(alloc: Global, to: &mut Vec<Row>, entry: &Entry) -> Result<(), NoMemory>
    ensures rows { OnOk result (to.new.items ≡ to.old.items ++ entry_row entry.now ∷ []) }
    ensures places { IsTablePlace entry.now.row entry.now.column }
    ensures reads_back { (others : List (List (List ℕ))) → IsFraction entry.now.num entry.now.den → IsTablePlace entry.now.row entry.now.column → IsWrittenBefore others entry_of (entry_row entry.now ∷ []) entry.now }
{
    let Entry {
        row,
        column,
        num,
        den,
    } = *entry;
    push_numbers(
        alloc,
        to,
        "wide",
        &[i128::from(row), i128::from(column), num, den],
    )
}

/// Adds the records of a path, and of the entry at its end.
///
/// # Errors
/// Want of memory.
#[tactic(auto, using(crate::proofs::WrittenParts::laws))]
pub fn push_wide(alloc: Global, to: &mut Vec<Row>, wide: &Wide) -> Result<(), NoMemory>
    ensures rows { OnOk result (to.new.items ≡ to.old.items ++ wide_rows wide.now) }
    ensures places { OnOk result (HasWidePlaces wide.now) }
    ensures reads_back { (others : List (List (List ℕ))) → HasFraction wide.now → HasWidePlaces wide.now → IsWrittenBefore others wide_of (wide_rows wide.now) wide.now }
{
    push_path(alloc, to, &wide.path)?;
    push_entry(alloc, to, &wide.entry)
}

/// Adds the part about the second path, where there is one.
///
/// # Errors
/// Want of memory.
#[tactic(auto, using(crate::proofs::WrittenParts::laws))]
pub fn push_second(alloc: Global, to: &mut Vec<Row>, second: &Option<Wide>) -> Result<(), NoMemory>
    ensures rows { OnOk result (to.new.items ≡ to.old.items ++ second_rows second.now) }
    ensures places { OnOk result (IfSome second.now HasWidePlaces) }
    ensures reads_back { (others : List (List (List ℕ))) → IfSome second.now HasFraction → IfSome second.now HasWidePlaces → IsWrittenBefore others (second_of (version_with second.now)) (second_rows second.now) second.now }
{
    match second {
        None => Ok(()),
        Some(wide) => {
            push_numbers(alloc, to, "again", &[])?;
            push_wide(alloc, to, wide)
        }
    }
}
