//! Reading the conditions of a text.
ghost use Rattle.std.specs.Prelude.{◌≡◌, ◌≢◌, ◌∷◌, ◌++◌, [], pos, drop, codes, Ok, Err, nat_le, ◌&&◌, IfOk, IfSome, OnOk, MatchResult};
ghost use Rattle.md_require.specs.declared.condition.Condition.{Condition as Told};
ghost use Rattle.md_require.specs.Limits.{AreConditionsFor, IsConditionFor};
ghost use Rattle.md_require.specs.RequireQuestion.{require_rows};
ghost use Rattle.md_parts.specs.Fields.{word_field};
ghost use Rattle.md_parts.specs.Reading.{read_record};
ghost use Rattle.md_conditions_text.specs.Kinds.{kind_ahead};
ghost use Rattle.md_conditions_text.specs.Known.{IsTold};
ghost use Rattle.md_conditions_text.specs.ConditionsText.{behind, conditions_of, conditions_read, narrow, next_condition, small_condition};

use crate::condition_reading::read_condition;
use crate::kind::{Kind, kind_of};
use crate::narrow::{has_narrow_rows, row_count, wide_place};
use md_num::NoMemory;
use md_parts::{AnswerRefusal, Reader, read_last};
use md_records::Records;
use md_require::Condition;
use md_setting::Setting;
use std::alloc::Global;

/// The most conditions of a text.
const MAX_CONDITIONS: usize = 1000;

/// The most rows of a setting and its conditions together.
const MAX_ROWS: u32 = 4096;

// The kind of the record that comes next, which is taken, if it is one of a condition.
fn next_kind(ahead: &mut Records) -> Result<Option<Kind>, NoMemory>
    ensures kind { IfOk result (λ kind. kind ≡ kind_ahead ahead.old) }
    ensures taken { IfOk result (λ kind. IfSome kind (λ _. ahead.new ≡ drop 1 ahead.old)) }
{
    match ahead.next()? {
        Some(record) => Ok(kind_of(&record)),
        None => Ok(None),
    }
}

/// Takes the record that comes next.
pub fn skip(ahead: &mut Records) -> Result<(), NoMemory>
    ensures { OnOk result (ahead.new ≡ drop 1 ahead.old) }
{
    let _ = ahead.next()?;
    Ok(())
}

// The record that was read last may not stand there.
fn refused_record(reader: &Reader) -> AnswerRefusal
    ensures { result ≡ AnswerRefusal.Line reader.now.read }
{
    match reader.refusal_at(1) {
        AnswerRefusal::Cell(number, _) => AnswerRefusal::Line(number),
        refusal => refusal,
    }
}

// The numbers of the rows of the condition that was read last must be small enough.
fn is_small(
    reader: &Reader,
    setting: &Setting,
    kind: Kind,
    condition: Condition,
) -> Result<Condition, AnswerRefusal>
    requires { IsTold setting.now condition }
    ensures read { MatchResult result
        (λ small. narrow setting.now kind condition reader.now ≡ Ok (small, reader.now))
        (λ refusal. narrow setting.now kind condition reader.now ≡ Err refusal) }
    ensures fits { IfOk result (IsConditionFor setting.now) }
{
    if has_narrow_rows(setting, &condition) {
        Ok(condition)
    } else {
        Err(reader.refusal_at(wide_place(setting, kind, &condition)))
    }
}

// The condition of a record of this kind, whose rows have small numbers.
fn read_small(
    alloc: Global,
    reader: &mut Reader,
    setting: &Setting,
    kind: Kind,
) -> Result<Condition, AnswerRefusal>
    ensures read { MatchResult result
        (λ small. small_condition setting.now kind reader.old ≡ Ok (small, reader.new))
        (λ refusal. refusal ≢ AnswerRefusal.Memory → small_condition setting.now kind reader.old ≡ Err refusal) }
    ensures fits { IfOk result (IsConditionFor setting.now) }
{
    let told = read_condition(alloc, reader, setting, kind)?;
    is_small(reader, setting, kind, told)
}

// So many conditions may stand in a text, with so many rows together with those of the setting.
fn are_few(count: usize, rows: u32) -> bool
    ensures { result ≡ (nat_le count 1000 && nat_le rows 4096) }
{
    count <= MAX_CONDITIONS && rows <= MAX_ROWS
}

fn push(conditions: &mut Vec<Condition>, condition: Condition) -> Result<(), NoMemory>
    ensures { OnOk result (conditions.new.items ≡ conditions.old.items ++ condition ∷ []) }
{
    conditions.push(condition)?;
    Ok(())
}

// One condition more may stand behind those that came before it, with so many rows in all. Adds it to them.
fn add(
    reader: &Reader,
    setting: &Setting,
    conditions: &mut Vec<Condition>,
    rows: u32,
    condition: Condition,
) -> Result<(), AnswerRefusal>
    requires before { AreConditionsFor setting.now conditions.old.items }
    requires one { IsConditionFor setting.now condition }
    requires rows { rows ≡ require_rows setting.now (conditions.old.items ++ condition ∷ []) }
    ensures read { MatchResult result
        (λ _. (behind setting.now conditions.old.items condition reader.now ≡ Ok (condition, reader.now)) × (conditions.new.items ≡ conditions.old.items ++ condition ∷ []))
        (λ refusal. refusal ≢ AnswerRefusal.Memory → behind setting.now conditions.old.items condition reader.now ≡ Err refusal) }
    ensures fits { OnOk result (AreConditionsFor setting.now conditions.new.items) }
{
    if !are_few(conditions.len() + 1, rows) {
        return Err(refused_record(reader));
    }
    push(conditions, condition)?;
    Ok(())
}

// Reads the condition of a record of this kind behind those that came before it, which have so many rows together with those of the
// setting. Adds it to them, and answers how many rows there are then.
fn read_next(
    alloc: Global,
    reader: &mut Reader,
    setting: &Setting,
    kind: Kind,
    conditions: &mut Vec<Condition>,
    rows: u32,
) -> Result<u32, AnswerRefusal>
    requires before { AreConditionsFor setting.now conditions.old.items }
    requires rows { rows ≡ require_rows setting.now conditions.old.items }
    ensures read { MatchResult result
        (λ _. (c : Told) × (next_condition setting.now conditions.old.items kind reader.old ≡ Ok (c, reader.new)) × (conditions.new.items ≡ conditions.old.items ++ c ∷ []))
        (λ refusal. refusal ≢ AnswerRefusal.Memory → next_condition setting.now conditions.old.items kind reader.old ≡ Err refusal) }
    ensures fits { IfOk result (λ _. AreConditionsFor setting.now conditions.new.items) }
    ensures rows { IfOk result (λ count. count ≡ require_rows setting.now conditions.new.items) }
{
    let condition = read_small(alloc, reader, setting, kind)?;
    let count = rows + row_count(setting, condition.measured);
    add(reader, setting, conditions, count, condition)?;
    Ok(count)
}

/// The conditions whose records come next, as many as there are. The other reader has the same records left: it tells the kind of each
/// before it is read.
///
/// # Errors
/// The first record that may not stand there or has a wrong field, or that memory ran out.
pub fn read_all(
    alloc: Global,
    reader: &mut Reader,
    ahead: &mut Records,
    setting: &Setting,
) -> Result<Vec<Condition>, AnswerRefusal>
    requires { ahead.old ≡ reader.old.left }
    ensures read { MatchResult result
        (λ conditions. conditions_read setting.now reader.old ≡ Ok (conditions.items, reader.new))
        (λ refusal. refusal ≢ AnswerRefusal.Memory → conditions_read setting.now reader.old ≡ Err refusal) }
    ensures fits { IfOk result (λ conditions. AreConditionsFor setting.now conditions.items) }
{
    let mut conditions = Vec::new(alloc);
    let mut rows = setting.rows();
    while let Some(kind) = next_kind(ahead)? {
        rows = read_next(alloc, reader, setting, kind, &mut conditions, rows)?;
    }
    Ok(conditions)
}

// The first record of a file of conditions.
fn read_version(reader: &mut Reader) -> Result<(), AnswerRefusal>
    ensures { MatchResult result
        (λ _. read_record (codes "require") (word_field (codes "1") ∷ []) reader.old ≡ Ok (pos 0 ∷ [], reader.new))
        (λ refusal. refusal ≢ AnswerRefusal.Memory → read_record (codes "require") (word_field (codes "1") ∷ []) reader.old ≡ Err refusal) }
{
    let mut fields = reader.next("require", 1)?;
    fields.word("1")
}

/// Reads the conditions that a designer adds to those of a setting.
///
/// # Errors
/// The first record that may not stand there or has a wrong field, that no end stands among the records, or that memory ran out.
pub fn read_conditions(
    alloc: Global,
    bytes: &[u8],
    setting: &Setting,
) -> Result<Vec<Condition>, AnswerRefusal>
    ensures reads { MatchResult result
        (λ conditions. conditions_of setting.now bytes.now ≡ Ok conditions.items)
        (λ refusal. refusal ≢ AnswerRefusal.Memory → conditions_of setting.now bytes.now ≡ Err refusal) }

    // What is read fits the setting.
    ensures fits { IfOk result (λ conditions. AreConditionsFor setting.now conditions.items) }
{
    let mut reader = Reader::new(alloc, bytes)?;
    let mut ahead = Records::new(alloc, bytes);
    read_version(&mut reader)?;
    skip(&mut ahead)?;
    let conditions = read_all(alloc, &mut reader, &mut ahead, setting)?;
    read_last(&mut reader)?;
    Ok(conditions)
}
