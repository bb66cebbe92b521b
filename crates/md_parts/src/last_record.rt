//! The last record, read and written.
ghost use Rattle.std.specs.Prelude.{◌≡◌, ◌≢◌, ◌++◌, ◌∷◌, [], Ok, Err, OnOk, MatchResult};
ghost use Rattle.md_parts.specs.LastRecord.{read_end};
ghost use Rattle.md_parts.specs.Rows.{end_row};
ghost use Rattle.md_parts.specs.Written.{IsWrittenBefore};

use crate::AnswerRefusal;
use crate::numbers::push_numbers;
use crate::reader::Reader;
use md_num::NoMemory;
use md_records::Row;
use std::alloc::Global;

/// The end, after which nothing follows.
///
/// # Errors
/// The first record that may not stand there or has a wrong field, or that memory ran out.
pub fn read_last(reader: &mut Reader) -> Result<(), AnswerRefusal>
    ensures { MatchResult result
        (λ _. read_end reader.old ≡ Ok (tt, reader.new))
        (λ refusal. refusal ≢ AnswerRefusal.Memory → read_end reader.old ≡ Err refusal) }
{
    let _ = reader.next("end", 0)?;
    reader.end()
}

/// Adds the end.
///
/// # Errors
/// Want of memory.
#[tactic(auto, using(crate::proofs::WrittenParts::laws))]
pub fn push_end(alloc: Global, to: &mut Vec<Row>) -> Result<(), NoMemory>
    ensures rows { OnOk result (to.new.items ≡ to.old.items ++ end_row ∷ []) }
    ensures reads_back { IsWrittenBefore [] read_end (end_row ∷ []) tt }
{
    push_numbers(alloc, to, "end", &[])
}
