//! Writing an answer about the best mechanism under conditions.
ghost use Rattle.std.specs.Prelude.{◌≡◌, ◌≤◌, ◌++◌, length, All, Ok, IfOk, OnOk};
ghost use Rattle.md_require_text.specs.RequiredRows.{answer_rows, finding_rows, finding_word, shadow_row, shadow_rows, text_of_required};
ghost use Rattle.md_require_text.specs.RequiredText.{required_answer_of};
ghost use Rattle.md_require_text.specs.Told.{IsFindingOver, IsFractionIfTold, IsRequiredAnswer};

use crate::answer::RequiredAnswer;
use md_conditions_text::{push_conditions, rows_of};
use md_num::{Frac, NoMemory};
use md_parts::{
    Version, push_bound, push_end, push_face, push_first, push_mechanism, push_numbers, push_pays,
    push_value,
};
use md_question::Finding;
use md_records::{Row, write_records};
use md_setting::Setting;
use std::alloc::Global;

// The word of what was found.
fn word(finding: &Finding) -> &'static str
    ensures { result.now ≡ finding_word finding.now }
{
    match finding {
        Finding::Optimal { .. } => "optimal",
        Finding::Infeasible { .. } => "infeasible",
        Finding::Unbounded { .. } => "unbounded",
    }
}

// Adds what was found, by a program of so many rows.
fn push_finding(
    alloc: Global,
    to: &mut Vec<Row>,
    setting: &Setting,
    rows: u32,
    finding: &Finding,
) -> Result<(), NoMemory>
    requires { IsFindingOver setting.now rows finding.now }
    ensures { OnOk result (to.new.items ≡ to.old.items ++ finding_rows setting.now rows finding.now) }
{
    match finding {
        Finding::Optimal {
            value,
            mechanism,
            bound,
        } => {
            push_value(alloc, to, *value)?;
            push_mechanism(alloc, to, setting, mechanism)?;
            push_bound(alloc, to, rows, bound)
        }
        Finding::Infeasible { face } => push_face(alloc, to, rows, face),
        Finding::Unbounded { mechanism, ray } => {
            push_mechanism(alloc, to, setting, mechanism)?;
            push_pays(alloc, to, setting, "ray", ray)
        }
    }
}

// Adds the record of a condition's shadow, unless it is not told.
fn push_shadow(
    alloc: Global,
    to: &mut Vec<Row>,
    index: u32,
    shadow: &Option<Frac>,
) -> Result<(), NoMemory>
    requires { IsFractionIfTold shadow.now }
    ensures { OnOk result (to.new.items ≡ to.old.items ++ shadow_row index shadow.now) }
{
    match shadow {
        Some(shadow) => push_numbers(
            alloc,
            to,
            "shadow",
            &[i128::from(index), shadow.num, shadow.den],
        ),
        None => Ok(()),
    }
}

// Adds the records of the shadows that are told.
fn push_shadows(alloc: Global, to: &mut Vec<Row>, shadows: &[Option<Frac>]) -> Result<(), NoMemory>
    requires few { length shadows.now ≤ 1000 }
    requires each { All IsFractionIfTold shadows.now }
    ensures { OnOk result (to.new.items ≡ to.old.items ++ shadow_rows shadows.now) }
{
    for index in 0..shadows.len() {
        push_shadow(alloc, to, index as u32, &shadows[index])?;
    }
    Ok(())
}

// All records of an answer.
fn records_of(
    alloc: Global,
    setting: &Setting,
    answer: &RequiredAnswer,
) -> Result<Vec<Row>, NoMemory>
    requires { IsRequiredAnswer setting.now answer.now }
    ensures { IfOk result (λ rows. rows.items ≡ answer_rows setting.now answer.now) }
{
    let mut rows = Vec::new(alloc);
    let (conditions, finding) = (answer.conditions(), answer.finding());
    push_first(alloc, &mut rows, Version::One, "required", word(finding))?;
    push_conditions(alloc, &mut rows, setting, conditions)?;
    push_finding(
        alloc,
        &mut rows,
        setting,
        rows_of(setting, conditions),
        finding,
    )?;
    push_shadows(alloc, &mut rows, answer.shadows())?;
    push_end(alloc, &mut rows)?;
    Ok(rows)
}

/// Writes an answer about the best mechanism of a setting under conditions as its one text.
///
/// # Errors
/// Want of memory.
pub fn write_required(
    alloc: Global,
    setting: &Setting,
    answer: &RequiredAnswer,
) -> Result<Vec<u8>, NoMemory>
    requires { IsRequiredAnswer setting.now answer.now }
    ensures text { IfOk result (λ text. text.items ≡ text_of_required setting.now answer.now) }

    // What is written is read as the same answer.
    ensures reads_back { IfOk result (λ text. required_answer_of setting.now text.items ≡ Ok answer.now) }
{
    let _accepted = setting.as_written();
    let rows = records_of(alloc, setting, answer)?;
    write_records(alloc, &rows)
}
