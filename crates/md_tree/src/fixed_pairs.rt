//! The records of what is fixed at a node, read and written.
ghost use Rattle.std.specs.Prelude.{◌≡◌, ◌≢◌, ◌<◌, ◌≤◌, ◌++◌, ◌∷◌, [], pos, map, codes, Ok, Err, IfOk, OnOk, MatchResult};
ghost use Rattle.md_parts.specs.Fields.{place_field};
ghost use Rattle.md_parts.specs.Reading.{read_record};
ghost use Rattle.md_tree.specs.AnswerTo.{AreFixedFrom};
ghost use Rattle.md_tree.specs.AnswerText.{fixed_of};
ghost use Rattle.md_tree.specs.Rows.{fixed_row};

use md_lp::{Path, Pivot};
use md_num::NoMemory;
use md_parts::{AnswerRefusal, Reader, push_numbers};
use md_records::Row;
use md_setting::Setting;
use std::alloc::Global;

// The record of a pair of a rank, which is not below the least, and an outcome.
fn read_pair(
    reader: &mut Reader,
    least: u32,
    profiles: u32,
    outcomes: u32,
) -> Result<Pivot, AnswerRefusal>
    ensures read { MatchResult result
        (λ pair. read_record (codes "fix") (place_field least profiles ∷ place_field 0 outcomes ∷ []) reader.old ≡ Ok (pos pair.row ∷ pos pair.column ∷ [], reader.new))
        (λ refusal. refusal ≢ AnswerRefusal.Memory → read_record (codes "fix") (place_field least profiles ∷ place_field 0 outcomes ∷ []) reader.old ≡ Err refusal) }
    ensures rank { IfOk result (λ pair. (least ≤ pair.row) × (pair.row < profiles)) }
    ensures outcome { IfOk result (λ pair. pair.column < outcomes) }
{
    let mut fields = reader.next("fix", 2)?;
    let row = fields.place(least as u64, profiles as u64)?;
    let column = fields.place(0, outcomes as u64)?;
    Ok(Pivot {
        row: row as u32,
        column: column as u32,
    })
}

/// The records of what is fixed at a node, as pairs of a rank and an outcome.
pub(crate) fn read_fixed(
    alloc: Global,
    reader: &mut Reader,
    setting: &Setting,
) -> Result<Path, AnswerRefusal>
    ensures read { MatchResult result
        (λ pairs. fixed_of setting.now reader.old ≡ Ok (pairs, reader.new))
        (λ refusal. refusal ≢ AnswerRefusal.Memory → fixed_of setting.now reader.old ≡ Err refusal) }
    ensures known { IfOk result (AreFixedFrom setting.now 0) }
{
    let (profiles, outcomes) = (setting.space().profiles(), setting.outcomes());
    let mut pairs = Path::new(alloc);
    let mut least = 0;
    while reader.comes_next("fix") {
        let pair = read_pair(reader, least, profiles, outcomes)?;
        least = pair.row + 1;
        pairs.push(pair)?;
    }
    Ok(pairs)
}

/// Adds the records of what is fixed at a node.
pub(crate) fn push_fixed(alloc: Global, to: &mut Vec<Row>, pairs: &Path) -> Result<(), NoMemory>
    ensures { OnOk result (to.new.items ≡ to.old.items ++ map fixed_row pairs.now) }
{
    for pair in pairs.as_slice() {
        let numbers = [i128::from(pair.row), i128::from(pair.column)];
        push_numbers(alloc, to, "fix", &numbers)?;
    }
    Ok(())
}
