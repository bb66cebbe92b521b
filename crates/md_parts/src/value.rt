//! The record of a value, read and written.
ghost use Rattle.std.specs.Prelude.{◌≡◌, ◌≢◌, ◌++◌, ◌∷◌, ℕ, List, [], Ok, Err, IfOk, OnOk, MatchResult};
ghost use Rattle.md_parts.specs.Table.{value_of};
ghost use Rattle.md_parts.specs.Rows.{value_row};
ghost use Rattle.md_parts.specs.Fitting.{IsFraction};
ghost use Rattle.md_parts.specs.Written.{IsWrittenBefore};

use crate::AnswerRefusal;
use crate::numbers::push_numbers;
use crate::range::Range;
use crate::reader::Reader;
use md_num::{Frac, NoMemory};
use md_records::Row;
use std::alloc::Global;

/// The value of a mechanism.
///
/// # Errors
/// The first record that may not stand there or has a wrong field, or that memory ran out.
#[tactic(auto, using(crate::proofs::PartsRead::known))]
pub fn read_value(reader: &mut Reader) -> Result<Frac, AnswerRefusal>
    ensures read { MatchResult result
        (λ value. value_of reader.old ≡ Ok (value, reader.new))
        (λ refusal. refusal ≢ AnswerRefusal.Memory → value_of reader.old ≡ Err refusal) }
    ensures fraction { IfOk result (λ value. IsFraction value.num value.den) }
{
    let mut fields = reader.next("value", 2)?;
    let (num, den) = fields.pair(126, Range::Any, Range::FromOne)?;
    Ok(Frac { num, den })
}

/// Adds the record of a value.
///
/// # Errors
/// Want of memory.
#[tactic(auto, using(crate::proofs::WrittenParts::laws))]
pub fn push_value(alloc: Global, to: &mut Vec<Row>, value: Frac) -> Result<(), NoMemory>
    ensures rows { OnOk result (to.new.items ≡ to.old.items ++ value_row value ∷ []) }
    ensures reads_back { (others : List (List (List ℕ))) → IsFraction value.num value.den → IsWrittenBefore others value_of (value_row value ∷ []) value }
{
    push_numbers(alloc, to, "value", &[value.num, value.den])
}
