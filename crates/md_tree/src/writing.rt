//! Writing a whole answer.
ghost use Rattle.std.specs.Prelude.{◌≡◌, ◌++◌, IfOk, OnOk, Ok};
ghost use Rattle.md_tree.specs.AnswerTo.{IsDetAnswerTo, HasPlaces};
ghost use Rattle.md_tree.specs.declared.answer.DetAnswer.{DetAnswer};
ghost use Rattle.md_tree.specs.AnswerText.{determ_answer_of};
ghost use Rattle.md_tree.specs.Rows.{answer_rows, inner_rows, kind_in, text_of_determ};

use crate::answer::DetAnswer;
use crate::first::push_kind;
use crate::fixed_pairs::push_fixed;
use crate::kind::Kind;
use crate::tree_writing::push_tree;
use md_num::NoMemory;
use md_parts::{push_end, push_mechanism, push_numbers, push_pays, push_value, push_wide};
use md_records::{Row, write_records};
use md_setting::Setting;
use std::alloc::Global;

// The kind of an answer.
fn kind_of(answer: &DetAnswer) -> Kind
    ensures { result ≡ kind_in answer.now }
{
    match answer {
        DetAnswer::Optimal { .. } => Kind::Optimal,
        DetAnswer::Infeasible { .. } => Kind::Infeasible,
        DetAnswer::Unbounded { .. } => Kind::Unbounded,
        DetAnswer::TooWide { .. } => Kind::TooWide,
    }
}

// Adds what stands between the first record and the last.
fn push_inner(
    alloc: Global,
    rows: &mut Vec<Row>,
    setting: &Setting,
    answer: &DetAnswer,
) -> Result<(), NoMemory>
    requires { IsDetAnswerTo setting.now answer.now }
    ensures rows { OnOk result (rows.new.items ≡ rows.old.items ++ inner_rows setting.now answer.now) }
    ensures places { OnOk result (HasPlaces answer.now) }
{
    match answer {
        DetAnswer::Optimal {
            value,
            mechanism,
            tree,
        } => {
            push_value(alloc, rows, *value)?;
            push_mechanism(alloc, rows, setting, mechanism)?;
            push_tree(alloc, rows, setting, tree)
        }
        DetAnswer::Infeasible { tree } => push_tree(alloc, rows, setting, tree),
        DetAnswer::Unbounded { mechanism, ray } => {
            push_mechanism(alloc, rows, setting, mechanism)?;
            push_pays(alloc, rows, setting, "ray", ray)
        }
        DetAnswer::TooWide {
            fixed,
            first,
            second,
        } => {
            push_fixed(alloc, rows, fixed)?;
            push_wide(alloc, rows, first)?;
            push_numbers(alloc, rows, "again", &[])?;
            push_wide(alloc, rows, second)
        }
    }
}

// All records of an answer.
fn records_of(alloc: Global, setting: &Setting, answer: &DetAnswer) -> Result<Vec<Row>, NoMemory>
    requires { IsDetAnswerTo setting.now answer.now }
    ensures rows { IfOk result (λ rows. rows.items ≡ answer_rows setting.now answer.now) }
    ensures places { IfOk result (λ _. HasPlaces answer.now) }
{
    let mut rows = Vec::new(alloc);
    push_kind(alloc, &mut rows, kind_of(answer))?;
    push_inner(alloc, &mut rows, setting, answer)?;
    push_end(alloc, &mut rows)?;
    Ok(rows)
}

/// Writes an answer about the deterministic mechanisms of a setting as its one text.
///
/// # Errors
/// Want of memory.
pub fn write_determ(
    alloc: Global,
    setting: &Setting,
    answer: &DetAnswer,
) -> Result<Vec<u8>, NoMemory>
    requires fits { IsDetAnswerTo setting.now answer.now }
    ensures text { IfOk result (λ text. text.items ≡ text_of_determ setting.now answer.now) }

    // What is written is read as the same answer.
    ensures reads_back { IfOk result (λ text. determ_answer_of setting.now text.items ≡ Ok answer.now) }
    ensures law { (a : DetAnswer) → IsDetAnswerTo setting.now a → HasPlaces a → determ_answer_of setting.now (text_of_determ setting.now a) ≡ Ok a }
{
    let _few = setting.rows();
    let rows = records_of(alloc, setting, answer)?;
    write_records(alloc, &rows)
}
