//! The first record, read and written.
ghost use Rattle.std.specs.Prelude.{◌≡◌, ◌≢◌, ◌++◌, ◌∷◌, [], codes, Ok, Err, OnOk, MatchResult};
ghost use Rattle.md_parts.specs.declared.version.Version.TheVariants.{One};
ghost use Rattle.md_parts.specs.Rows.{first_row};
ghost use Rattle.md_tree.specs.AnswerText.{kind_read};
ghost use Rattle.md_tree.specs.Kinds.{word_of};

use crate::kind::{Kind, answer_words};
use md_num::NoMemory;
use md_parts::{AnswerRefusal, Reader, Version, push_first};
use md_records::Row;
use std::alloc::Global;

/// The first record: the version of the format, and which answer it is.
///
/// # Errors
/// The record may not stand there or has a wrong field, no record is left, or memory ran out.
pub(crate) fn read_kind(reader: &mut Reader) -> Result<Kind, AnswerRefusal>
    ensures { MatchResult result
        (λ kind. kind_read reader.old ≡ Ok (kind, reader.new))
        (λ refusal. refusal ≢ AnswerRefusal.Memory → kind_read reader.old ≡ Err refusal) }
{
    let mut fields = reader.next("answer", 3)?;
    fields.word("1")?;
    fields.word("determ")?;
    let place = fields.one_of(&answer_words())?;
    Ok(Kind::at(place))
}

/// Adds the first record.
pub(crate) fn push_kind(alloc: Global, to: &mut Vec<Row>, kind: Kind) -> Result<(), NoMemory>
    ensures { OnOk result (to.new.items ≡ to.old.items ++ first_row One (codes "determ") (word_of kind) ∷ []) }
{
    push_first(alloc, to, Version::One, "determ", kind.word())
}
