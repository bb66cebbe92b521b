//! Reading a whole answer.
ghost use Rattle.std.specs.Prelude.{◌≡◌, ◌≢◌, [], codes, Ok, Err, IfOk, MatchResult};
ghost use Rattle.md_parts.specs.Fitting.{HasFraction, HasWidePlaces};
ghost use Rattle.md_parts.specs.Reading.{read_record};
ghost use Rattle.md_tree.specs.AnswerTo.{IsDetAnswerTo, HasPlaces};
ghost use Rattle.md_tree.specs.AnswerText.{optimal_answer, infeasible_answer, unbounded_answer, too_wide_answer, answer_by, determ_answer_of};

use crate::answer::DetAnswer;
use crate::first::read_kind;
use crate::fixed_pairs::read_fixed;
use crate::kind::Kind;
use crate::tree_reading::read_tree;
use md_parts::{
    AnswerRefusal, Reader, read_last, read_mechanism, read_pays, read_value, read_wide,
};
use md_setting::Setting;
use std::alloc::Global;

// A value, a mechanism and a tree.
fn read_optimal(
    alloc: Global,
    reader: &mut Reader,
    setting: &Setting,
) -> Result<DetAnswer, AnswerRefusal>
    ensures reads { MatchResult result
        (λ answer. optimal_answer setting.now reader.old ≡ Ok (answer, reader.new))
        (λ refusal. refusal ≢ AnswerRefusal.Memory → optimal_answer setting.now reader.old ≡ Err refusal) }
    ensures known { IfOk result (λ answer. IsDetAnswerTo setting.now answer × HasPlaces answer) }
{
    let value = read_value(reader)?;
    let mechanism = read_mechanism(alloc, reader, setting)?;
    let tree = read_tree(alloc, reader, setting)?;
    Ok(DetAnswer::Optimal {
        value,
        mechanism,
        tree,
    })
}

// A tree alone.
fn read_infeasible(
    alloc: Global,
    reader: &mut Reader,
    setting: &Setting,
) -> Result<DetAnswer, AnswerRefusal>
    ensures reads { MatchResult result
        (λ answer. infeasible_answer setting.now reader.old ≡ Ok (answer, reader.new))
        (λ refusal. refusal ≢ AnswerRefusal.Memory → infeasible_answer setting.now reader.old ≡ Err refusal) }
    ensures known { IfOk result (λ answer. IsDetAnswerTo setting.now answer × HasPlaces answer) }
{
    let tree = read_tree(alloc, reader, setting)?;
    Ok(DetAnswer::Infeasible { tree })
}

// A mechanism and a ray.
fn read_unbounded(
    alloc: Global,
    reader: &mut Reader,
    setting: &Setting,
) -> Result<DetAnswer, AnswerRefusal>
    ensures reads { MatchResult result
        (λ answer. unbounded_answer setting.now reader.old ≡ Ok (answer, reader.new))
        (λ refusal. refusal ≢ AnswerRefusal.Memory → unbounded_answer setting.now reader.old ≡ Err refusal) }
    ensures known { IfOk result (λ answer. IsDetAnswerTo setting.now answer × HasPlaces answer) }
{
    let mechanism = read_mechanism(alloc, reader, setting)?;
    let ray = read_pays(alloc, reader, setting, "ray")?;
    Ok(DetAnswer::Unbounded { mechanism, ray })
}

// The record between the two paths.
fn read_again(reader: &mut Reader) -> Result<(), AnswerRefusal>
    ensures { MatchResult result
        (λ _. read_record (codes "again") [] reader.old ≡ Ok ([], reader.new))
        (λ refusal. refusal ≢ AnswerRefusal.Memory → read_record (codes "again") [] reader.old ≡ Err refusal) }
{
    let _ = reader.next("again", 0)?;
    Ok(())
}

// What is fixed where the paths become too wide, and the two paths.
fn read_too_wide(
    alloc: Global,
    reader: &mut Reader,
    setting: &Setting,
) -> Result<DetAnswer, AnswerRefusal>
    ensures reads { MatchResult result
        (λ answer. too_wide_answer setting.now reader.old ≡ Ok (answer, reader.new))
        (λ refusal. refusal ≢ AnswerRefusal.Memory → too_wide_answer setting.now reader.old ≡ Err refusal) }
    ensures known { IfOk result (λ answer. IsDetAnswerTo setting.now answer × HasPlaces answer) }
{
    let fixed = read_fixed(alloc, reader, setting)?;
    let first = read_wide(alloc, reader)?;
    read_again(reader)?;
    let second = read_wide(alloc, reader)?;
    Ok(DetAnswer::TooWide {
        fixed,
        first,
        second,
    })
}

/// What stands between the first record and the last, by which answer it is.
///
/// # Errors
/// The first record that may not stand there, has a wrong field or does not add to what it must, that no record is left, or that
/// memory ran out.
pub(crate) fn read_by_kind(
    alloc: Global,
    reader: &mut Reader,
    setting: &Setting,
    kind: Kind,
) -> Result<DetAnswer, AnswerRefusal>
    ensures reads { MatchResult result
        (λ answer. answer_by setting.now kind reader.old ≡ Ok (answer, reader.new))
        (λ refusal. refusal ≢ AnswerRefusal.Memory → answer_by setting.now kind reader.old ≡ Err refusal) }
    ensures known { IfOk result (λ answer. IsDetAnswerTo setting.now answer × HasPlaces answer) }
{
    match kind {
        Kind::Optimal => read_optimal(alloc, reader, setting),
        Kind::Infeasible => read_infeasible(alloc, reader, setting),
        Kind::Unbounded => read_unbounded(alloc, reader, setting),
        Kind::TooWide => read_too_wide(alloc, reader, setting),
    }
}

/// Reads an answer about the deterministic mechanisms of a setting.
///
/// # Errors
/// The first record that may not stand there, has a wrong field or does not add to what it must, that no end stands
/// among the records, or that memory ran out.
pub fn read_determ(
    alloc: Global,
    bytes: &[u8],
    setting: &Setting,
) -> Result<DetAnswer, AnswerRefusal>
    ensures reads { MatchResult result
        (λ answer. determ_answer_of setting.now bytes.now ≡ Ok answer)
        (λ refusal. refusal ≢ AnswerRefusal.Memory → determ_answer_of setting.now bytes.now ≡ Err refusal) }

    // What is read has the sizes of the setting, and its numbers are in their ranges.
    ensures fits { IfOk result (IsDetAnswerTo setting.now) }
    ensures places { IfOk result HasPlaces }
{
    let mut reader = Reader::new(alloc, bytes)?;
    let kind = read_kind(&mut reader)?;
    let answer = read_by_kind(alloc, &mut reader, setting, kind)?;
    read_last(&mut reader)?;
    Ok(answer)
}
