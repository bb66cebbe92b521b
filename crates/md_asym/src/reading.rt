//! Reading an answer about the best mechanism of a sale.
ghost use Rattle.std.specs.Prelude.{◌≡◌, ◌≢◌, [], map, codes, Ok, Err, IfOk, MatchResult};
ghost use Rattle.md_parts.specs.Reading.{read_record};
ghost use Rattle.md_asym_sale.specs.Sale.{IsSale};
ghost use Rattle.md_asym.specs.AnswerTo.{HasPlaces, IsAnswerTo, IsSaleAnswer};
ghost use Rattle.md_asym.specs.SaleText.{answer_by, answer_words, best_of, sale_answer_of, too_wide_answer};

use crate::asym_answer::AsymAnswer;
use crate::mass_records::read_masses;
use crate::pair_numbers::read_interim;
use crate::sale_answer::SaleAnswer;
use md_asym_sale::{pair_count, row_count};
use md_parts::{
    AnswerRefusal, Reader, read_bound, read_cuts, read_first, read_last, read_value, read_wide,
};
use md_setting::Setting;
use std::alloc::Global;

// A value, odds, payments and masses, cuts and multipliers.
fn read_best(
    alloc: Global,
    reader: &mut Reader,
    setting: &Setting,
) -> Result<AsymAnswer, AnswerRefusal>
    requires { IsSale setting.now }
    ensures reads { MatchResult result
        (λ answer. best_of setting.now reader.old ≡ Ok (answer, reader.new))
        (λ refusal. refusal ≢ AnswerRefusal.Memory → best_of setting.now reader.old ≡ Err refusal) }
    ensures known { IfOk result (IsAnswerTo setting.now) }
{
    let value = read_value(reader)?;
    let interim = read_interim(alloc, reader, setting)?;
    let masses = read_masses(alloc, reader, setting, &interim)?;
    let cuts = read_cuts(alloc, reader, pair_count(setting))?;
    let bound = read_bound(alloc, reader, row_count(setting, &cuts))?;
    Ok(AsymAnswer {
        value,
        interim,
        masses,
        cuts,
        bound,
    })
}

// The record between the two paths.
fn read_again(reader: &mut Reader) -> Result<(), AnswerRefusal>
    ensures { MatchResult result
        (λ _. read_record (codes "again") [] reader.old ≡ Ok ([], reader.new))
        (λ refusal. refusal ≢ AnswerRefusal.Memory → read_record (codes "again") [] reader.old ≡ Err refusal) }
{
    let _ = reader.next("again", 0)?;
    Ok(())
}

// Where the paths of the program with some cuts become too wide.
fn read_too_wide(
    alloc: Global,
    reader: &mut Reader,
    setting: &Setting,
) -> Result<SaleAnswer, AnswerRefusal>
    requires { IsSale setting.now }
    ensures reads { MatchResult result
        (λ answer. too_wide_answer setting.now reader.old ≡ Ok (answer, reader.new))
        (λ refusal. refusal ≢ AnswerRefusal.Memory → too_wide_answer setting.now reader.old ≡ Err refusal) }
    ensures known { IfOk result (λ answer. IsSaleAnswer setting.now answer × HasPlaces answer) }
{
    let cuts = read_cuts(alloc, reader, pair_count(setting))?;
    let first = read_wide(alloc, reader)?;
    read_again(reader)?;
    let second = read_wide(alloc, reader)?;
    Ok(SaleAnswer::TooWide {
        cuts,
        first,
        second,
    })
}

// What stands between the first record and the last, by the place of the first record's word.
fn read_by_word(
    alloc: Global,
    reader: &mut Reader,
    setting: &Setting,
    word: usize,
) -> Result<SaleAnswer, AnswerRefusal>
    requires { IsSale setting.now }
    ensures reads { MatchResult result
        (λ answer. answer_by setting.now word reader.old ≡ Ok (answer, reader.new))
        (λ refusal. refusal ≢ AnswerRefusal.Memory → answer_by setting.now word reader.old ≡ Err refusal) }
    ensures known { IfOk result (λ answer. IsSaleAnswer setting.now answer × HasPlaces answer) }
{
    match word {
        0 => {
            let answer = read_best(alloc, reader, setting)?;
            Ok(SaleAnswer::Optimal(answer))
        }
        _ => read_too_wide(alloc, reader, setting),
    }
}

// The words of all kinds of answers, in their order.
fn answer_words() -> [&'static str; 2]
    ensures { map (λ w. w.now) result ≡ answer_words }
{
    ["optimal", "toowide"]
}

/// Reads an answer about the best mechanism of a sale.
///
/// # Errors
/// The first record that may not stand there, has a wrong field or adds to more than it may, that no end stands among the
/// records, or that memory ran out.
pub fn read_asym(
    alloc: Global,
    bytes: &[u8],
    setting: &Setting,
) -> Result<SaleAnswer, AnswerRefusal>
    requires { IsSale setting.now }
    ensures reads { MatchResult result
        (λ answer. sale_answer_of setting.now bytes.now ≡ Ok answer)
        (λ refusal. refusal ≢ AnswerRefusal.Memory → sale_answer_of setting.now bytes.now ≡ Err refusal) }

    // What is read has the sizes of the sale, and its numbers are in their ranges.
    ensures fits { IfOk result (IsSaleAnswer setting.now) }
    ensures places { IfOk result HasPlaces }
{
    let mut reader = Reader::new(alloc, bytes)?;
    let head = read_first(&mut reader, "asym", &answer_words())?;
    let answer = read_by_word(alloc, &mut reader, setting, head.word)?;
    read_last(&mut reader)?;
    Ok(answer)
}
