//! Reading an answer about the fairest mechanism.
ghost use Rattle.std.specs.Prelude.{◌≡◌, ◌≢◌, [], map, codes, Ok, Err, IfOk, MatchResult};
ghost use Rattle.md_setting.specs.Setting.{GeneralSetting};
ghost use Rattle.md_parts.specs.Reading.{read_record};
ghost use Rattle.md_fair.specs.FairRows.{HasPlaces, IsFairAnswer};
ghost use Rattle.md_fair.specs.FairText.{answer_by, answer_words, fair_answer_of, infeasible_answer, optimal_answer, too_wide_answer, unbounded_answer};

use crate::answer::FairAnswer;
use crate::layout::row_count;
use md_parts::{
    AnswerRefusal, Reader, read_bound, read_face, read_first, read_last, read_mechanism, read_pays,
    read_value, read_wide,
};
use md_question::Finding;
use md_setting::Setting;
use std::alloc::Global;

// A value, a mechanism and multipliers.
fn read_optimal(
    alloc: Global,
    reader: &mut Reader,
    setting: &Setting,
) -> Result<FairAnswer, AnswerRefusal>
    ensures reads { MatchResult result
        (λ answer. optimal_answer setting.now reader.old ≡ Ok (answer, reader.new))
        (λ refusal. refusal ≢ AnswerRefusal.Memory → optimal_answer setting.now reader.old ≡ Err refusal) }
    ensures known { IfOk result (λ answer. IsFairAnswer setting.now answer × HasPlaces answer) }
{
    let value = read_value(reader)?;
    let mechanism = read_mechanism(alloc, reader, setting)?;
    let bound = read_bound(alloc, reader, row_count(setting))?;
    Ok(FairAnswer::Found(Finding::Optimal {
        value,
        mechanism,
        bound,
    }))
}

// Face multipliers alone.
fn read_infeasible(
    alloc: Global,
    reader: &mut Reader,
    setting: &Setting,
) -> Result<FairAnswer, AnswerRefusal>
    ensures reads { MatchResult result
        (λ answer. infeasible_answer setting.now reader.old ≡ Ok (answer, reader.new))
        (λ refusal. refusal ≢ AnswerRefusal.Memory → infeasible_answer setting.now reader.old ≡ Err refusal) }
    ensures known { IfOk result (λ answer. IsFairAnswer setting.now answer × HasPlaces answer) }
{
    let face = read_face(alloc, reader, row_count(setting))?;
    Ok(FairAnswer::Found(Finding::Infeasible { face }))
}

// A mechanism and a ray.
fn read_unbounded(
    alloc: Global,
    reader: &mut Reader,
    setting: &Setting,
) -> Result<FairAnswer, AnswerRefusal>
    ensures reads { MatchResult result
        (λ answer. unbounded_answer setting.now reader.old ≡ Ok (answer, reader.new))
        (λ refusal. refusal ≢ AnswerRefusal.Memory → unbounded_answer setting.now reader.old ≡ Err refusal) }
    ensures known { IfOk result (λ answer. IsFairAnswer setting.now answer × HasPlaces answer) }
{
    let mechanism = read_mechanism(alloc, reader, setting)?;
    let ray = read_pays(alloc, reader, setting, "ray")?;
    Ok(FairAnswer::Found(Finding::Unbounded { mechanism, ray }))
}

// The record between the two paths.
fn read_again(reader: &mut Reader) -> Result<(), AnswerRefusal>
    ensures { MatchResult result
        (λ _. read_record (codes "again") [] reader.old ≡ Ok ([], reader.new))
        (λ refusal. refusal ≢ AnswerRefusal.Memory → read_record (codes "again") [] reader.old ≡ Err refusal) }
{
    let _ = reader.next("again", 0)?;
    Ok(())
}

// Where the paths become too wide.
fn read_too_wide(alloc: Global, reader: &mut Reader) -> Result<FairAnswer, AnswerRefusal>
    ensures reads { MatchResult result
        (λ answer. too_wide_answer reader.old ≡ Ok (answer, reader.new))
        (λ refusal. refusal ≢ AnswerRefusal.Memory → too_wide_answer reader.old ≡ Err refusal) }
    ensures known { (s : GeneralSetting) → IfOk result (λ answer. IsFairAnswer s answer × HasPlaces answer) }
{
    let first = read_wide(alloc, reader)?;
    read_again(reader)?;
    let second = read_wide(alloc, reader)?;
    Ok(FairAnswer::TooWide { first, second })
}

// What stands between the first record and the last, by the place of the first record's word.
fn read_by_word(
    alloc: Global,
    reader: &mut Reader,
    setting: &Setting,
    word: usize,
) -> Result<FairAnswer, AnswerRefusal>
    ensures reads { MatchResult result
        (λ answer. answer_by setting.now word reader.old ≡ Ok (answer, reader.new))
        (λ refusal. refusal ≢ AnswerRefusal.Memory → answer_by setting.now word reader.old ≡ Err refusal) }
    ensures known { IfOk result (λ answer. IsFairAnswer setting.now answer × HasPlaces answer) }
{
    match word {
        0 => read_optimal(alloc, reader, setting),
        1 => read_infeasible(alloc, reader, setting),
        2 => read_unbounded(alloc, reader, setting),
        _ => read_too_wide(alloc, reader),
    }
}

// The words of all kinds of answers, in their order.
fn answer_words() -> [&'static str; 4]
    ensures { map (λ w. w.now) result ≡ answer_words }
{
    ["optimal", "infeasible", "unbounded", "toowide"]
}

/// Reads an answer about the fairest mechanism of a setting.
///
/// # Errors
/// The first record that may not stand there, has a wrong field or does not add to what it must, that no end stands
/// among the records, or that memory ran out.
pub fn read_fair(
    alloc: Global,
    bytes: &[u8],
    setting: &Setting,
) -> Result<FairAnswer, AnswerRefusal>
    ensures reads { MatchResult result
        (λ answer. fair_answer_of setting.now bytes.now ≡ Ok answer)
        (λ refusal. refusal ≢ AnswerRefusal.Memory → fair_answer_of setting.now bytes.now ≡ Err refusal) }

    // What is read has the sizes of the setting, and its numbers are in their ranges.
    ensures fits { IfOk result (IsFairAnswer setting.now) }
    ensures places { IfOk result HasPlaces }
{
    let mut reader = Reader::new(alloc, bytes)?;
    let head = read_first(&mut reader, "fair", &answer_words())?;
    let answer = read_by_word(alloc, &mut reader, setting, head.word)?;
    read_last(&mut reader)?;
    Ok(answer)
}
