//! Reading an answer about the best mechanism under conditions.
ghost use Rattle.std.specs.Prelude.{◌≡◌, ◌≢◌, ◌<◌, ◌≤◌, ◌-◌, ◌++◌, ◌∷◌, [], ℕ, pos, codes, length, replicate, map, None, Some, Ok, Err, IfOk, OnOk, MatchResult};
ghost use Rattle.md_setting.specs.Setting.{GeneralSetting};
ghost use Rattle.md_parts.specs.Reading.{read_record};
ghost use Rattle.md_require.specs.Limits.{AreConditionsFor};
ghost use Rattle.md_require_text.specs.RequiredText.{answer_words, behind_conditions, finding_by, infeasible_finding, optimal_finding, required_answer_of, shadow_fields, shadows_of, unbounded_finding};
ghost use Rattle.md_require_text.specs.Told.{AreShadowsFor, IsFindingOver, IsRequiredAnswer, IsShadowFraction, shadow_count};

use crate::answer::RequiredAnswer;
use md_conditions_text::{read_all, rows_of, skip};
use md_num::{Frac, NoMemory};
use md_parts::{
    AnswerRefusal, Range, Reader, read_bound, read_face, read_first, read_last, read_mechanism,
    read_pays, read_value,
};
use md_question::Finding;
use md_records::Records;
use md_require::Condition;
use md_setting::Setting;
use std::alloc::Global;

// A value, a mechanism and multipliers.
fn read_optimal(
    alloc: Global,
    reader: &mut Reader,
    setting: &Setting,
    rows: u32,
) -> Result<Finding, AnswerRefusal>
    ensures read { MatchResult result
        (λ finding. optimal_finding setting.now rows reader.old ≡ Ok (finding, reader.new))
        (λ refusal. refusal ≢ AnswerRefusal.Memory → optimal_finding setting.now rows reader.old ≡ Err refusal) }
    ensures known { IfOk result (IsFindingOver setting.now rows) }
{
    let value = read_value(reader)?;
    let mechanism = read_mechanism(alloc, reader, setting)?;
    let bound = read_bound(alloc, reader, rows)?;
    Ok(Finding::Optimal {
        value,
        mechanism,
        bound,
    })
}

// Face multipliers alone.
fn read_infeasible(alloc: Global, reader: &mut Reader, rows: u32) -> Result<Finding, AnswerRefusal>
    ensures read { MatchResult result
        (λ finding. infeasible_finding rows reader.old ≡ Ok (finding, reader.new))
        (λ refusal. refusal ≢ AnswerRefusal.Memory → infeasible_finding rows reader.old ≡ Err refusal) }
    ensures known { (s : GeneralSetting) → IfOk result (IsFindingOver s rows) }
{
    let face = read_face(alloc, reader, rows)?;
    Ok(Finding::Infeasible { face })
}

// A mechanism and a ray.
fn read_unbounded(
    alloc: Global,
    reader: &mut Reader,
    setting: &Setting,
) -> Result<Finding, AnswerRefusal>
    ensures read { MatchResult result
        (λ finding. unbounded_finding setting.now reader.old ≡ Ok (finding, reader.new))
        (λ refusal. refusal ≢ AnswerRefusal.Memory → unbounded_finding setting.now reader.old ≡ Err refusal) }
    ensures known { (rows : ℕ) → IfOk result (IsFindingOver setting.now rows) }
{
    let mechanism = read_mechanism(alloc, reader, setting)?;
    let ray = read_pays(alloc, reader, setting, "ray")?;
    Ok(Finding::Unbounded { mechanism, ray })
}

// What was found, by the place of the first record's word and a program of so many rows.
fn read_finding(
    alloc: Global,
    reader: &mut Reader,
    setting: &Setting,
    rows: u32,
    word: usize,
) -> Result<Finding, AnswerRefusal>
    ensures read { MatchResult result
        (λ finding. finding_by setting.now rows word reader.old ≡ Ok (finding, reader.new))
        (λ refusal. refusal ≢ AnswerRefusal.Memory → finding_by setting.now rows word reader.old ≡ Err refusal) }
    ensures known { IfOk result (IsFindingOver setting.now rows) }
{
    match word {
        0 => read_optimal(alloc, reader, setting, rows),
        1 => read_infeasible(alloc, reader, rows),
        _ => read_unbounded(alloc, reader, setting),
    }
}

// The record of a shadow: the number of its condition, and the shadow.
#[derive(Drop)]
struct ShadowRecord {
    index: usize,
    shadow: Frac,
}

// The record of a shadow, whose condition has a number from one on and below another.
fn read_shadow(reader: &mut Reader, least: usize, count: u32) -> Result<ShadowRecord, AnswerRefusal>
    ensures read { MatchResult result
        (λ found. read_record (codes "shadow") (shadow_fields count least) reader.old ≡ Ok (pos found.index ∷ found.shadow.num ∷ found.shadow.den ∷ [], reader.new))
        (λ refusal. refusal ≢ AnswerRefusal.Memory → read_record (codes "shadow") (shadow_fields count least) reader.old ≡ Err refusal) }
    ensures index { IfOk result (λ found. (least ≤ found.index) × (found.index < count)) }
    ensures fraction { IfOk result (λ found. IsShadowFraction found.shadow) }
{
    let mut fields = reader.next("shadow", 3)?;
    let index = fields.place(least as u64, u64::from(count))?;
    let num = fields.number(62, Range::Any)?;
    let den = fields.number(62, Range::FromOne)?;
    Ok(ShadowRecord {
        index: index as usize,
        shadow: Frac { num, den },
    })
}

// Adds shadows that are not told, until there are so many.
fn fill(shadows: &mut Vec<Option<Frac>>, count: usize) -> Result<(), NoMemory>
    requires { length shadows.old.items ≤ count }
    ensures { OnOk result (shadows.new.items ≡ shadows.old.items ++ replicate (count - length shadows.old.items) None) }
{
    for index in shadows.len()..count {
        let _ = index;
        shadows.push(None)?;
    }
    Ok(())
}

// Puts a shadow at a place past the end, with shadows before it that are not told.
fn put_at(shadows: &mut Vec<Option<Frac>>, index: usize, shadow: Frac) -> Result<(), NoMemory>
    requires { length shadows.old.items ≤ index }
    ensures { OnOk result (shadows.new.items ≡ (shadows.old.items ++ replicate (index - length shadows.old.items) None) ++ Some shadow ∷ []) }
{
    fill(shadows, index)?;
    shadows.push(Some(shadow))?;
    Ok(())
}

// The shadows of so many conditions.
fn read_shadows(
    alloc: Global,
    reader: &mut Reader,
    count: u32,
) -> Result<Vec<Option<Frac>>, AnswerRefusal>
    ensures read { MatchResult result
        (λ shadows. shadows_of count reader.old ≡ Ok (shadows.items, reader.new))
        (λ refusal. refusal ≢ AnswerRefusal.Memory → shadows_of count reader.old ≡ Err refusal) }
    ensures known { IfOk result (λ shadows. AreShadowsFor count shadows.items) }
{
    let mut shadows = Vec::new(alloc);
    while reader.comes_next("shadow") {
        let found = read_shadow(reader, shadows.len(), count)?;
        put_at(&mut shadows, found.index, found.shadow)?;
    }
    fill(&mut shadows, count as usize)?;
    Ok(shadows)
}

// Of how many of so many conditions a shadow may be told.
fn shadow_count(finding: &Finding, count: u32) -> u32
    ensures { result ≡ shadow_count finding.now count }
{
    match finding {
        Finding::Optimal { .. } => count,
        Finding::Infeasible { .. } => 0,
        Finding::Unbounded { .. } => 0,
    }
}

// The words of all kinds of answers, in their order.
fn answer_words() -> [&'static str; 3]
    ensures { map (λ w. w.now) result ≡ answer_words }
{
    ["optimal", "infeasible", "unbounded"]
}

// What stands behind the conditions of an answer, by the place of the first record's word.
fn read_behind(
    alloc: Global,
    reader: &mut Reader,
    setting: &Setting,
    word: usize,
    conditions: Vec<Condition>,
) -> Result<RequiredAnswer, AnswerRefusal>
    requires { AreConditionsFor setting.now conditions.items }
    ensures read { MatchResult result
        (λ answer. behind_conditions setting.now word conditions.items reader.old ≡ Ok (answer, reader.new))
        (λ refusal. refusal ≢ AnswerRefusal.Memory → behind_conditions setting.now word conditions.items reader.old ≡ Err refusal) }
    ensures fits { IfOk result (IsRequiredAnswer setting.now) }
{
    let rows = rows_of(setting, &conditions);
    let finding = read_finding(alloc, reader, setting, rows, word)?;
    let count = shadow_count(&finding, conditions.len() as u32);
    let shadows = read_shadows(alloc, reader, count)?;
    read_last(reader)?;
    let answer = RequiredAnswer::new(conditions, finding, shadows);
    Ok(answer)
}

/// Reads an answer about the best mechanism of a setting under conditions.
///
/// # Errors
/// The first record that may not stand there, has a wrong field or does not add to what it must, that no end stands
/// among the records, or that memory ran out.
pub fn read_required(
    alloc: Global,
    bytes: &[u8],
    setting: &Setting,
) -> Result<RequiredAnswer, AnswerRefusal>
    ensures reads { MatchResult result
        (λ answer. required_answer_of setting.now bytes.now ≡ Ok answer)
        (λ refusal. refusal ≢ AnswerRefusal.Memory → required_answer_of setting.now bytes.now ≡ Err refusal) }

    // What is read has the sizes of the setting and its conditions, and its numbers are in their ranges.
    ensures fits { IfOk result (IsRequiredAnswer setting.now) }
{
    let mut reader = Reader::new(alloc, bytes)?;
    let mut ahead = Records::new(alloc, bytes);
    let head = read_first(&mut reader, "required", &answer_words())?;
    skip(&mut ahead)?;
    let conditions = read_all(alloc, &mut reader, &mut ahead, setting)?;
    read_behind(alloc, &mut reader, setting, head.word, conditions)
}
