//! Writing an answer about the best mechanism of a sale.
ghost use Rattle.std.specs.Prelude.{◌≡◌, ◌++◌, IfOk, OnOk, Ok};
ghost use Rattle.md_asym_sale.specs.Sale.{IsSale};
ghost use Rattle.md_asym.specs.AnswerTo.{HasPlaces, IsAnswerTo, IsSaleAnswer};
ghost use Rattle.md_asym.specs.SaleRows.{answer_rows, best_rows, inner_rows, text_of_sale, word_of};
ghost use Rattle.md_asym.specs.SaleText.{sale_answer_of};

use crate::asym_answer::AsymAnswer;
use crate::mass_records::push_masses;
use crate::pair_numbers::push_interim;
use crate::sale_answer::SaleAnswer;
use md_asym_sale::row_count;
use md_num::NoMemory;
use md_parts::{
    Version, push_bound, push_cuts, push_end, push_first, push_numbers, push_value, push_wide,
};
use md_records::{Row, write_records};
use md_setting::Setting;
use std::alloc::Global;

// The word of an answer.
fn word(answer: &SaleAnswer) -> &'static str
    ensures { result.now ≡ word_of answer.now }
{
    match answer {
        SaleAnswer::Optimal(_) => "optimal",
        SaleAnswer::TooWide { .. } => "toowide",
    }
}

// Adds the records of the best mechanism.
fn push_best(
    alloc: Global,
    rows: &mut Vec<Row>,
    setting: &Setting,
    answer: &AsymAnswer,
) -> Result<(), NoMemory>
    requires sale { IsSale setting.now }
    requires answer { IsAnswerTo setting.now answer.now }
    ensures { OnOk result (rows.new.items ≡ rows.old.items ++ best_rows setting.now answer.now) }
{
    push_value(alloc, rows, answer.value)?;
    push_interim(alloc, rows, setting, &answer.interim)?;
    push_masses(alloc, rows, setting, &answer.masses)?;
    push_cuts(alloc, rows, &answer.cuts)?;
    push_bound(alloc, rows, row_count(setting, &answer.cuts), &answer.bound)
}

// Adds what stands between the first record and the last.
fn push_inner(
    alloc: Global,
    rows: &mut Vec<Row>,
    setting: &Setting,
    answer: &SaleAnswer,
) -> Result<(), NoMemory>
    requires sale { IsSale setting.now }
    requires answer { IsSaleAnswer setting.now answer.now }
    ensures rows { OnOk result (rows.new.items ≡ rows.old.items ++ inner_rows setting.now answer.now) }
    ensures places { OnOk result (HasPlaces answer.now) }
{
    match answer {
        SaleAnswer::Optimal(best) => push_best(alloc, rows, setting, best),
        SaleAnswer::TooWide {
            cuts,
            first,
            second,
        } => {
            push_cuts(alloc, rows, cuts)?;
            push_wide(alloc, rows, first)?;
            push_numbers(alloc, rows, "again", &[])?;
            push_wide(alloc, rows, second)
        }
    }
}

// All records of an answer.
fn records_of(alloc: Global, setting: &Setting, answer: &SaleAnswer) -> Result<Vec<Row>, NoMemory>
    requires sale { IsSale setting.now }
    requires answer { IsSaleAnswer setting.now answer.now }
    ensures rows { IfOk result (λ rows. rows.items ≡ answer_rows setting.now answer.now) }
    ensures places { IfOk result (λ _. HasPlaces answer.now) }
{
    let mut rows = Vec::new(alloc);
    push_first(alloc, &mut rows, Version::One, "asym", word(answer))?;
    push_inner(alloc, &mut rows, setting, answer)?;
    push_end(alloc, &mut rows)?;
    Ok(rows)
}

/// Writes an answer about the best mechanism of a sale as its one text.
///
/// # Errors
/// Want of memory.
pub fn write_asym(
    alloc: Global,
    setting: &Setting,
    answer: &SaleAnswer,
) -> Result<Vec<u8>, NoMemory>
    requires sale { IsSale setting.now }
    requires answer { IsSaleAnswer setting.now answer.now }
    ensures text { IfOk result (λ text. text.items ≡ text_of_sale setting.now answer.now) }

    // What is written is read as the same answer.
    ensures reads_back { IfOk result (λ text. sale_answer_of setting.now text.items ≡ Ok answer.now) }
{
    let _shaped = setting.rows();
    let rows = records_of(alloc, setting, answer)?;
    write_records(alloc, &rows)
}
