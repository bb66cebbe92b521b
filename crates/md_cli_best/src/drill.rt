//! The command `drill`: the setting that a number stands for is solved, and the answer is read back and checked.
ghost use Rattle.std.specs.Prelude.{◌≡◌, true, ◌⊎◌, ◌≤◌, ◌∷◌, [], IfOk, IfErr, Ok};
ghost use Rattle.md_gen.specs.Generated.{IsGenerated};
ghost use Rattle.md_setting.specs.ByKind.{WhereAuction, WhereGeneral, has_no_groups};
ghost use Rattle.md_answer.specs.AnswerTo.{IsAnswerTo};
ghost use Rattle.md_answer.specs.AuctionAnswerTo.{IsAuctionAnswer};
ghost use Rattle.md_answer.specs.Kinds.{word_of};
ghost use Rattle.md_answer.specs.Rows.{kind_in};
ghost use Rattle.md_records.specs.Written.{text_of_records};
ghost use Rattle.md_cli_driver.specs.declared.refusal.Refusal.TheVariants as refusal;
ghost use Rattle.md_cli_driver.specs.Reading.{answer_in};
ghost use Rattle.md_cli_best.specs.Drilling.{IsCheckedAs, IsDrill, IsDrilled, IsDrillStatus, IsReadable, IsToldOf, check_row, drill_row, kind_of, value_in, with_value, word_of_verdict};
ghost use Rattle.md_cli_best.specs.Headline.{IsSolveStatus};
ghost use Rattle.md_cli_driver.specs.Refused.{refused, status_of};
ghost use Rattle.md_cli_driver.specs.Saying.{said};

use crate::make::in_range;
use crate::solve::solved;
use md_answer::{Answer, AnswerRefusal, read_answer};
use md_check::{Verdict, check};
use md_cli_driver::{Answered, NoFile, Refusal};
use md_gen::make;
use md_num::{Frac, NoMemory, Width};
use md_records::{Row, write_records};
use md_setting::SettingFile;
use std::alloc::Global;

/// `drill NUMBER`
#[derive(Drop)]
pub struct Drill {
    /// The number that stands for a setting.
    pub number: i128,
}

impl NoFile for Drill {
    ghost says = { λ command. IsDrill command.number };

    ghost own = { IsDrillStatus };

    fn answer(&self, alloc: Global) -> Result<Answered, Refusal> {
        told(alloc, self.number)
    }
}

// What comes of the setting that a number stands for, or that it stands for none.
fn told(alloc: Global, number: i128) -> Result<Answered, Refusal>
    ensures said { IfOk result (λ answered. IsDrill number (said answered)) }
    ensures status { IfOk result (λ answered. IsSolveStatus answered.status) }
    ensures refused { IfErr result (λ e. (e ≡ refusal.Memory) ⊎ (IsDrill number (refused e) × (status_of e ≡ 67))) }
{
    match in_range(number) {
        Ok(number) => Ok(drilled(alloc, number)?),
        Err(refusal) => Err(refusal),
    }
}

// The setting is made and solved, the text of its answer is read back, and the checker judges what was read. Each step that can fail
// stands in a function that owns nothing of an earlier one but by reference, since what is let go where it fails is dear to prove.
fn drilled(alloc: Global, number: u32) -> Result<Answered, NoMemory>
    requires { number ≤ 999999 }
    ensures drilled { IfOk result (λ answered. IsDrilled number (said answered)) }
    ensures status { IfOk result (λ answered. IsSolveStatus answered.status) }
{
    let file = make(alloc, number)?;
    drilled_of(alloc, number, &file)
}

// What comes of the setting that was made.
#[tactic(auto, using(crate::proofs::Drilled::made_without_groups))]
fn drilled_of(alloc: Global, number: u32, file: &SettingFile) -> Result<Answered, NoMemory>
    requires { IsGenerated number file.now }
    ensures drilled { IfOk result (λ answered. IsDrilled number (said answered)) }
    ensures status { IfOk result (λ answered. IsSolveStatus answered.status) }
{
    let solved = solved(alloc, file, greatest_width())?;
    Ok(Answered {
        status: solved.status,
        text: told_of(alloc, number, file, &solved.text)?,
    })
}

// What is told of the text of an answer, which is read back and checked.
fn told_of(alloc: Global, number: u32, file: &SettingFile, text: &[u8]) -> Result<Vec<u8>, NoMemory>
    requires kind { has_no_groups file.now ≡ true }
    requires readable { IsReadable file.now text.now }
    ensures { IfOk result (λ told. IsToldOf number file.now text.now told.items) }
{
    let answer = answer_again(alloc, file, text)?;
    checked(alloc, number, file, &answer)
}

// Both records about an answer.
fn checked(
    alloc: Global,
    number: u32,
    file: &SettingFile,
    answer: &Answer,
) -> Result<Vec<u8>, NoMemory>
    requires kind { has_no_groups file.now ≡ true }
    requires general { WhereGeneral (λ s. IsAnswerTo s answer.now) file.now }
    requires auction { WhereAuction (λ a. IsAuctionAnswer a answer.now) file.now }
    ensures { IfOk result (λ told. IsCheckedAs number file.now answer.now told.items) }
{
    let verdict = check(alloc, file, answer)?;
    records(alloc, number, file, answer, &verdict)
}

// The width within which a setting is solved where no other is asked for.
fn greatest_width() -> Width
    ensures { result ≡ 62 }
{
    match Width::new(62) {
        Some(width) => width,
        None => unreachable!(),
    }
}

// The answer that a text says which was printed.
fn answer_again(alloc: Global, file: &SettingFile, text: &[u8]) -> Result<Answer, NoMemory>
    requires kind { has_no_groups file.now ≡ true }
    requires readable { IsReadable file.now text.now }
    ensures read { IfOk result (λ answer. answer_in file.now text.now ≡ Ok answer) }
    ensures general { WhereGeneral (λ s. IfOk result (IsAnswerTo s)) file.now }
    ensures auction { WhereAuction (λ a. IfOk result (IsAuctionAnswer a)) file.now }
{
    match read_answer(alloc, text, file) {
        Ok(answer) => Ok(answer),
        Err(AnswerRefusal::Memory) => Err(NoMemory),
        Err(_) => unreachable!(),
    }
}

// Both records.
fn records(
    alloc: Global,
    number: u32,
    file: &SettingFile,
    answer: &Answer,
    verdict: &Verdict,
) -> Result<Vec<u8>, NoMemory>
    ensures { IfOk result (λ text. text.items ≡ text_of_records (drill_row number file.now answer.now ∷ check_row verdict.now ∷ [])) }
{
    let drill = drill_record(alloc, number, file, answer)?;
    let check = check_record(alloc, verdict)?;
    write_records(alloc, &[drill, check])
}

// The record of what came of the setting.
fn drill_record(
    alloc: Global,
    number: u32,
    file: &SettingFile,
    answer: &Answer,
) -> Result<Row, NoMemory>
    ensures { IfOk result (λ row. row ≡ drill_row number file.now answer.now) }
{
    let numbered = Row::new(alloc)
        .with(b"drill")?
        .with_number(i128::from(number))?;
    let named = numbered
        .with(kind(file).as_bytes())?
        .with(word(answer).as_bytes())?;
    with_value(named, value_of(answer))
}

// The record of the verdict.
fn check_record(alloc: Global, verdict: &Verdict) -> Result<Row, NoMemory>
    ensures { IfOk result (λ row. row ≡ check_row verdict.now) }
{
    Row::new(alloc)
        .with(b"check")?
        .with(verdict_word(verdict).as_bytes())
}

// The value of an answer that has one.
fn value_of(answer: &Answer) -> Option<Frac>
    ensures { result ≡ value_in answer.now }
{
    match answer {
        Answer::Optimal { value, .. } => Some(*value),
        Answer::AuctionOptimal { value, .. } => Some(*value),
        _ => None,
    }
}

// A record with a value behind it, where there is one.
fn with_value(row: Row, value: Option<Frac>) -> Result<Row, NoMemory>
    ensures { IfOk result (λ more. more ≡ with_value row value) }
{
    match value {
        Some(value) => row.with_number(value.num)?.with_number(value.den),
        None => Ok(row),
    }
}

// The kind of a setting, as answers name it.
fn kind(file: &SettingFile) -> &'static str
    ensures { result.now ≡ kind_of file.now }
{
    match file {
        SettingFile::General(_) => "general",
        SettingFile::Auction(_) => "auction",
        SettingFile::Bidders(_) => "bidders",
    }
}

// Which answer it is, in the word of its first record.
fn word(answer: &Answer) -> &'static str
    ensures { result.now ≡ word_of (kind_in answer.now) }
{
    match answer {
        Answer::Table(_) => "table",
        Answer::Optimal { .. } | Answer::AuctionOptimal { .. } => "optimal",
        Answer::Infeasible { .. } => "infeasible",
        Answer::Unbounded { .. } => "unbounded",
        Answer::TooWide { .. } => "toowide",
    }
}

// What the checker finds.
fn verdict_word(verdict: &Verdict) -> &'static str
    ensures { result.now ≡ word_of_verdict verdict.now }
{
    match verdict {
        Verdict::Valid => "valid",
        Verdict::Undecided => "undecided",
        Verdict::Rejected(_) => "rejected",
    }
}
