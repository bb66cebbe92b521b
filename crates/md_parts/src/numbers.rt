//! Records of numbers, written.
ghost use Rattle.std.specs.Prelude.{◌≡◌, ◌++◌, ◌∷◌, ℕ, List, [], map, IfOk, OnOk};
ghost use Rattle.md_num.specs.WholeText.{text_of};
ghost use Rattle.md_parts.specs.Rows.{number_row};
ghost use Rattle.md_parts.specs.Fields.{Field};
ghost use Rattle.md_parts.specs.Reading.{read_record};
ghost use Rattle.md_parts.specs.Written.{Holds, IsWrittenBefore};

use md_num::NoMemory;
use md_records::Row;
use std::alloc::Global;

/// The record with the texts of numbers after its fields.
pub(crate) fn with_numbers(row: Row, numbers: &[i128]) -> Result<Row, NoMemory>
    ensures { IfOk result (λ filled. filled ≡ row ++ map text_of numbers.now) }
{
    let mut filled = row;
    for number in numbers {
        filled = filled.with_number(*number)?;
    }
    Ok(filled)
}

/// Adds a record of numbers after a word.
///
/// # Errors
/// Want of memory.
#[tactic(auto, using(crate::proofs::WrittenParts::laws))]
pub fn push_numbers(
    alloc: Global,
    to: &mut Vec<Row>,
    word: &str,
    numbers: &[i128],
) -> Result<(), NoMemory>
    ensures rows { OnOk result (to.new.items ≡ to.old.items ++ number_row word.now numbers.now ∷ []) }

    // It is read back by any fields that take these numbers.
    ensures reads_back { (fields : List Field) (others : List (List (List ℕ))) → Holds fields (map text_of numbers.now) numbers.now → IsWrittenBefore others (read_record word.now fields) (number_row word.now numbers.now ∷ []) numbers.now }
{
    let named = Row::new(alloc).with(word.as_bytes())?;
    to.push(with_numbers(named, numbers)?)?;
    Ok(())
}
