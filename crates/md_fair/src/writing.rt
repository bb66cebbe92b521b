//! Writing an answer about the fairest mechanism.
ghost use Rattle.std.specs.Prelude.{◌≡◌, ◌++◌, IfOk, OnOk, Ok};
ghost use Rattle.md_fair.specs.FairRows.{HasPlaces, IsFairAnswer, answer_rows, inner_rows, text_of_fair, word_of};
ghost use Rattle.md_fair.specs.FairText.{fair_answer_of};

use crate::answer::FairAnswer;
use crate::layout::row_count;
use md_num::NoMemory;
use md_parts::{
    Version, push_bound, push_end, push_face, push_first, push_mechanism, push_numbers, push_pays,
    push_value, push_wide,
};
use md_question::Finding;
use md_records::{Row, write_records};
use md_setting::Setting;
use std::alloc::Global;

// The word of an answer.
fn word(answer: &FairAnswer) -> &'static str
    ensures { result.now ≡ word_of answer.now }
{
    match answer {
        FairAnswer::Found(Finding::Optimal { .. }) => "optimal",
        FairAnswer::Found(Finding::Infeasible { .. }) => "infeasible",
        FairAnswer::Found(Finding::Unbounded { .. }) => "unbounded",
        FairAnswer::TooWide { .. } => "toowide",
    }
}

// Adds what stands between the first record and the last.
fn push_inner(
    alloc: Global,
    rows: &mut Vec<Row>,
    setting: &Setting,
    answer: &FairAnswer,
) -> Result<(), NoMemory>
    requires { IsFairAnswer setting.now answer.now }
    ensures rows { OnOk result (rows.new.items ≡ rows.old.items ++ inner_rows setting.now answer.now) }
    ensures places { OnOk result (HasPlaces answer.now) }
{
    match answer {
        FairAnswer::Found(
            Finding::Optimal {
                value,
                mechanism,
                bound,
            },
        ) => {
            push_value(alloc, rows, *value)?;
            push_mechanism(alloc, rows, setting, mechanism)?;
            push_bound(alloc, rows, row_count(setting), bound)
        }
        FairAnswer::Found(Finding::Infeasible { face }) => {
            push_face(alloc, rows, row_count(setting), face)
        }
        FairAnswer::Found(Finding::Unbounded { mechanism, ray }) => {
            push_mechanism(alloc, rows, setting, mechanism)?;
            push_pays(alloc, rows, setting, "ray", ray)
        }
        FairAnswer::TooWide { first, second } => {
            push_wide(alloc, rows, first)?;
            push_numbers(alloc, rows, "again", &[])?;
            push_wide(alloc, rows, second)
        }
    }
}

// All records of an answer.
fn records_of(alloc: Global, setting: &Setting, answer: &FairAnswer) -> Result<Vec<Row>, NoMemory>
    requires { IsFairAnswer setting.now answer.now }
    ensures rows { IfOk result (λ rows. rows.items ≡ answer_rows setting.now answer.now) }
    ensures places { IfOk result (λ _. HasPlaces answer.now) }
{
    let mut rows = Vec::new(alloc);
    push_first(alloc, &mut rows, Version::One, "fair", word(answer))?;
    push_inner(alloc, &mut rows, setting, answer)?;
    push_end(alloc, &mut rows)?;
    Ok(rows)
}

/// Writes an answer about the fairest mechanism of a setting as its one text.
///
/// # Errors
/// Want of memory.
pub fn write_fair(
    alloc: Global,
    setting: &Setting,
    answer: &FairAnswer,
) -> Result<Vec<u8>, NoMemory>
    requires { IsFairAnswer setting.now answer.now }
    ensures text { IfOk result (λ text. text.items ≡ text_of_fair setting.now answer.now) }

    // What is written is read as the same answer.
    ensures reads_back { IfOk result (λ text. fair_answer_of setting.now text.items ≡ Ok answer.now) }
{
    let _few = setting.rows();
    let rows = records_of(alloc, setting, answer)?;
    write_records(alloc, &rows)
}
