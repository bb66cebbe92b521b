//! The records of cuts, read and written.
ghost use Rattle.std.specs.Prelude.{◌≡◌, ◌≢◌, ◌<◌, ◌≤◌, ◌^◌, ◌++◌, ◌∷◌, ℕ, pos, List, [], true, false, Ok, Err, codes, IfOk, OnOk, MatchResult};
ghost use Rattle.md_lp.specs.Cuts.{AreCuts};
ghost use Rattle.md_parts.specs.Fields.{is_free_place};
ghost use Rattle.md_parts.specs.Reading.{read_record};
ghost use Rattle.md_parts.specs.Repeated.{comes_next};
ghost use Rattle.md_parts.specs.Cuts.{cut_fields, cuts_of};
ghost use Rattle.md_parts.specs.Rows.{cut_rows};
ghost use Rattle.md_parts.specs.Written.{IsWrittenBefore};

use crate::AnswerRefusal;
use crate::numbers::push_numbers;
use crate::reader::Reader;
use md_lp::Sets;
use md_num::NoMemory;
use md_records::Row;
use std::alloc::Global;

// How many sets there are of so many kinds.
fn sets_of(kinds: u32) -> u32
    requires { kinds ≤ 12 }
    ensures { result ≡ 2 ^ kinds }
{
    1u32 << kinds
}

// The record of a set that is none of those that came before.
fn read_cut(reader: &mut Reader, kinds: u32, before: &[u32]) -> Result<u32, AnswerRefusal>
    requires { kinds ≤ 12 }
    ensures read { MatchResult result
        (λ set. read_record (codes "cut") (cut_fields kinds before.now) reader.old ≡ Ok (pos set ∷ [], reader.new))
        (λ refusal. refusal ≢ AnswerRefusal.Memory → read_record (codes "cut") (cut_fields kinds before.now) reader.old ≡ Err refusal) }
    ensures free { IfOk result (λ set. is_free_place 1 (2 ^ kinds) before.now (pos set) ≡ true) }
{
    let mut fields = reader.next("cut", 1)?;
    fields.free_place(1, sets_of(kinds), before)
}

/// The records of cuts, as many as there are: sets of so many kinds of values. None is empty, and none comes twice.
///
/// # Errors
/// The first record that is no such set, or that memory ran out.
pub fn read_cuts(alloc: Global, reader: &mut Reader, kinds: u32) -> Result<Sets, AnswerRefusal>
    requires { kinds ≤ 12 }
    ensures read { MatchResult result
        (λ sets. cuts_of kinds reader.old ≡ Ok (sets, reader.new))
        (λ refusal. refusal ≢ AnswerRefusal.Memory → cuts_of kinds reader.old ≡ Err refusal) }
    ensures cuts { IfOk result (AreCuts kinds) }
{
    let mut sets = Sets::new(alloc);
    while reader.comes_next("cut") {
        let set = read_cut(reader, kinds, sets.as_slice())?;
        sets.push(set)?;
    }
    Ok(sets)
}

/// Adds the records of cuts.
///
/// # Errors
/// Want of memory.
#[tactic(auto, using(crate::proofs::CutsWritten::laws))]
pub fn push_cuts(alloc: Global, to: &mut Vec<Row>, sets: &Sets) -> Result<(), NoMemory>
    ensures rows { OnOk result (to.new.items ≡ to.old.items ++ cut_rows sets.now) }

    // They are read back as the same sets, where no other cut follows.
    ensures reads_back { (kinds : ℕ) (others : List (List (List ℕ))) → kinds ≤ 12 → AreCuts kinds sets.now → comes_next (codes "cut") others ≡ false
        → IsWrittenBefore others (cuts_of kinds) (cut_rows sets.now) sets.now }
{
    for set in sets.as_slice() {
        push_numbers(alloc, to, "cut", &[i128::from(*set)])?;
    }
    Ok(())
}
