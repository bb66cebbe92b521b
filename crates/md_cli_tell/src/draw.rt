//! The command `run`: an outcome drawn of an answer at a profile of reports.
ghost use Rattle.std.specs.Prelude.{◌≡◌, ◌⊎◌, ◌++◌, ◌∷◌, [], true, IfOk, IfErr, OnOk};
ghost use Rattle.md_setting.specs.ByKind.{WhereAuction, WhereGeneral, has_no_groups};
ghost use Rattle.md_records.specs.Written.{text_of_records};
ghost use Rattle.md_answer.specs.AnswerTo.{IsAnswerTo};
ghost use Rattle.md_answer.specs.AuctionAnswerTo.{IsAuctionAnswer};
ghost use Rattle.md_cli_driver.specs.declared.refusal.Refusal.TheVariants as refusal;
ghost use Rattle.md_cli_driver.specs.Refused.{refused, status_of};
ghost use Rattle.md_cli_driver.specs.Saying.{said};
ghost use Rattle.md_cli_tell.specs.Drawing.{IsDrawing, IsOutcomeIn, draw_refused, drawn_rows, has_pays, has_table, outcome_row, pays_rows, winner_name};
ghost use Rattle.md_cli_tell.specs.Running.{IsDrawable, IsRun, IsRunStatus, drawable_in};

use crate::drawable::{Drawable, read_drawable};
use crate::profile::reports_of;
use crate::sale_draw::draw_other;
use md_answer::Answer;
use md_cli_driver::{Answered, DONE, Refusal, TwoFiles, has_no_groups};
use md_num::NoMemory;
use md_parts::push_numbers;
use md_records::{Row, write_records};
use md_run::{DrawRefusal, Drawn, draw};
use md_setting::SettingFile;
use std::alloc::Global;

/// `run SETTING ANSWER PROFILE DRAW1 DRAW2`
#[derive(Drop)]
pub struct Draw<'a> {
    /// The names of the reports, with commas between them.
    pub profile: &'a str,
    /// The first draw.
    pub first: i128,
    /// The second draw.
    pub second: i128,
}

impl TwoFiles for Draw<'_> {
    type Second = Drawable;

    ghost is_served = { has_no_groups };

    ghost reading = { λ _. drawable_in };

    ghost fits = { λ _. IsDrawable };

    ghost says = { λ command. IsRun command.profile.now command.first command.second };

    ghost own = { IsRunStatus };

    fn serves(&self, file: &SettingFile) -> bool {
        has_no_groups(file)
    }

    fn second(&self, alloc: Global, file: &SettingFile, bytes: &[u8]) -> Result<Drawable, Refusal> {
        read_drawable(alloc, file, bytes)
    }

    fn answer(
        &self,
        alloc: Global,
        file: &SettingFile,
        drawable: &Drawable,
    ) -> Result<Answered, Refusal> {
        match drawable {
            Drawable::Table(answer) => {
                drawn(alloc, file, answer, self.profile, self.first, self.second)
            }
            Drawable::Other(text) => {
                draw_other(alloc, file, text, self.profile, self.first, self.second)
            }
        }
    }
}

// What two draws give at a profile, or why there is nothing.
fn drawn(
    alloc: Global,
    file: &SettingFile,
    answer: &Answer,
    profile: &str,
    first: i128,
    second: i128,
) -> Result<Answered, Refusal>
    requires kind { has_no_groups file.now ≡ true }
    requires general { WhereGeneral (λ s. IsAnswerTo s answer.now) file.now }
    requires auction { WhereAuction (λ a. IsAuctionAnswer a answer.now) file.now }
    requires table { has_table answer.now ≡ true }
    ensures drawn { IfOk result (λ answered. IsDrawing file.now answer.now profile.now first second (said answered)) }
    ensures status { IfOk result (λ answered. answered.status ≡ 0) }
    ensures refused { IfErr result (λ e. (e ≡ refusal.Memory) ⊎ (IsDrawing file.now answer.now profile.now first second (refused e) × (status_of e ≡ 67))) }
{
    let Some(reports) = reports_of(alloc, file, profile)? else {
        return Err(Refusal::Profile);
    };
    match draw(alloc, file, answer, &reports, first, second) {
        Ok(drawn) => Ok(told(alloc, file, &drawn)?),
        Err(refusal) => Err(refusal_by(refusal)),
    }
}

/// What is said where nothing is drawn.
pub(crate) fn refusal_by(refusal: DrawRefusal) -> Refusal
    ensures { result ≡ draw_refused refusal }
{
    match refusal {
        DrawRefusal::NoTable => Refusal::NoTable,
        DrawRefusal::Profile => Refusal::Profile,
        DrawRefusal::Draw => Refusal::Draw,
        DrawRefusal::Memory => Refusal::Memory,
    }
}

/// The records of what was drawn.
pub(crate) fn told(alloc: Global, file: &SettingFile, drawn: &Drawn) -> Result<Answered, NoMemory>
    requires { IsOutcomeIn file.now drawn.now.outcome }
    ensures text { IfOk result (λ answered. answered.text.items ≡ text_of_records (drawn_rows file.now drawn.now)) }
    ensures status { IfOk result (λ answered. answered.status ≡ 0) }
{
    let mut rows = Vec::new(alloc);
    rows.push(outcome_record(alloc, file, drawn.outcome)?)?;
    push_pays(alloc, &mut rows, file, drawn)?;
    Ok(Answered {
        status: DONE,
        text: write_records(alloc, &rows)?,
    })
}

// Whether agents pay.
fn has_pays(file: &SettingFile) -> bool
    ensures { result ≡ has_pays file.now }
{
    match file {
        SettingFile::General(setting) => setting.payments(),
        SettingFile::Auction(_) | SettingFile::Bidders(_) => true,
    }
}

// The record of an outcome: its name; of an auction, that the item is kept, or the number of the bidder who gets it.
fn outcome_record(alloc: Global, file: &SettingFile, outcome: u32) -> Result<Row, NoMemory>
    requires { IsOutcomeIn file.now outcome }
    ensures { IfOk result (λ row. row ≡ outcome_row file.now outcome) }
{
    let row = Row::new(alloc).with(b"outcome")?;
    match file {
        SettingFile::General(setting) => row.with(setting.outcome_name(outcome).as_bytes()),
        SettingFile::Auction(_) => with_winner(row, outcome),
        SettingFile::Bidders(_) => unreachable!(),
    }
}

// A record with who gets the item.
fn with_winner(row: Row, outcome: u32) -> Result<Row, NoMemory>
    ensures { IfOk result (λ more. more ≡ row ++ winner_name outcome ∷ []) }
{
    if outcome == 0 {
        return row.with(b"keep");
    }
    row.with_number(i128::from(outcome))
}

// Adds the record of the payments, behind their denominator, where agents pay.
fn push_pays(
    alloc: Global,
    rows: &mut Vec<Row>,
    file: &SettingFile,
    drawn: &Drawn,
) -> Result<(), NoMemory>
    ensures { OnOk result (rows.new.items ≡ rows.old.items ++ pays_rows file.now drawn.now) }
{
    if !has_pays(file) {
        return Ok(());
    }
    let mut numbers = Vec::new(alloc);
    numbers.push(drawn.den)?;
    numbers.extend_from_slice(drawn.pays.as_slice())?;
    push_numbers(alloc, rows, "pays", &numbers)
}
