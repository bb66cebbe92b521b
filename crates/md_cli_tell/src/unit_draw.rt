//! The command `run` with a number of units: who gets one by an answer about their sale, at a profile of reports.
ghost use Rattle.std.specs.Prelude.{◌≡◌, ◌⊎◌, ◌++◌, ◌∷◌, [], true, codes, length, IfOk, IfErr, OnOk};
ghost use Rattle.md_records.specs.Written.{text_of_records};
ghost use Rattle.md_parts.specs.Rows.{number_row};
ghost use Rattle.md_cli_driver.specs.declared.refusal.Refusal.TheVariants as refusal;
ghost use Rattle.md_cli_driver.specs.Reading.{is_auction};
ghost use Rattle.md_cli_driver.specs.Refused.{refused, status_of};
ghost use Rattle.md_cli_driver.specs.Saying.{said};
ghost use Rattle.md_cli_tell.specs.Running.{IsRunStatus};
ghost use Rattle.md_cli_tell.specs.UnitAnswers.{HasUnitTable, unit_table_in};
ghost use Rattle.md_cli_tell.specs.UnitDrawing.{IsUnitRun, units_drawn_rows, winner_rows};

use crate::award_text::push_win;
use crate::draw::refusal_by;
use crate::profile::reports_of;
use crate::unit_answer::read_unit_table;
use md_answer::Answer;
use md_cli_driver::{Answered, DONE, Refusal, TwoFiles, auction, is_auction};
use md_num::NoMemory;
use md_parts::push_numbers;
use md_records::{Row, write_records};
use md_run::{UnitsDrawn, draw_units};
use md_setting::SettingFile;
use md_unit_tables::UnitNumber;
use std::alloc::Global;

/// `run SETTING ANSWER PROFILE DRAW1 DRAW2 --units NUMBER`
#[derive(Drop)]
pub struct DrawUnits<'a> {
    /// How many units are sold.
    pub units: UnitNumber,
    /// The names of the reports, with commas between them.
    pub profile: &'a str,
    /// The first draw.
    pub first: i128,
    /// The second draw.
    pub second: i128,
}

impl TwoFiles for DrawUnits<'_> {
    type Second = Answer;

    ghost is_served = { is_auction };

    ghost reading = { λ command. unit_table_in command.units };

    ghost fits = { λ command. HasUnitTable command.units };

    ghost says = { λ command. IsUnitRun command.units command.profile.now command.first command.second };

    ghost own = { IsRunStatus };

    fn serves(&self, file: &SettingFile) -> bool {
        is_auction(file)
    }

    fn second(&self, alloc: Global, file: &SettingFile, bytes: &[u8]) -> Result<Answer, Refusal> {
        read_unit_table(alloc, file, &self.units, bytes)
    }

    fn answer(
        &self,
        alloc: Global,
        file: &SettingFile,
        answer: &Answer,
    ) -> Result<Answered, Refusal> {
        drawn(
            alloc,
            file,
            &self.units,
            answer,
            self.profile,
            self.first,
            self.second,
        )
    }
}

// Who gets a unit at the profile, or why nothing is drawn.
fn drawn(
    alloc: Global,
    file: &SettingFile,
    units: &UnitNumber,
    answer: &Answer,
    profile: &str,
    first: i128,
    second: i128,
) -> Result<Answered, Refusal>
    requires file { is_auction file.now ≡ true }
    requires answer { HasUnitTable units.now file.now answer.now }
    ensures drawn { IfOk result (λ answered. IsUnitRun units.now profile.now first second file.now answer.now (said answered)) }
    ensures status { IfOk result (λ answered. answered.status ≡ 0) }
    ensures refused { IfErr result (λ e. (e ≡ refusal.Memory) ⊎ (IsUnitRun units.now profile.now first second file.now answer.now (refused e) × (status_of e ≡ 67))) }
{
    let auction = auction(file);
    let Some(reports) = reports_of(alloc, file, profile)? else {
        return Err(Refusal::Profile);
    };
    match draw_units(alloc, auction, answer, &reports, first, second) {
        Ok(drawn) => Ok(told(alloc, auction.bidders(), &drawn)?),
        Err(refusal) => Err(refusal_by(refusal)),
    }
}

// The records of who gets a unit, and of the payments.
fn told(alloc: Global, bidders: u32, drawn: &UnitsDrawn) -> Result<Answered, NoMemory>
    requires { length drawn.now.wins.items ≡ bidders }
    ensures text { IfOk result (λ answered. answered.text.items ≡ text_of_records (units_drawn_rows drawn.now)) }
    ensures status { IfOk result (λ answered. answered.status ≡ 0) }
{
    let mut rows = Vec::new(alloc);
    push_winners(alloc, &mut rows, bidders, &drawn.wins)?;
    push_payments(alloc, &mut rows, drawn)?;
    Ok(Answered {
        status: DONE,
        text: write_records(alloc, &rows)?,
    })
}

// Adds a record for each of so many bidders that gets a unit.
fn push_winners(
    alloc: Global,
    rows: &mut Vec<Row>,
    bidders: u32,
    wins: &[bool],
) -> Result<(), NoMemory>
    requires { length wins.now ≡ bidders }
    ensures { OnOk result (rows.new.items ≡ rows.old.items ++ winner_rows wins.now) }
{
    for bidder in 0..bidders {
        push_win(alloc, rows, bidder, wins[bidder as usize])?;
    }
    Ok(())
}

// Adds the record of the payments, behind their denominator.
fn push_payments(alloc: Global, rows: &mut Vec<Row>, drawn: &UnitsDrawn) -> Result<(), NoMemory>
    ensures { OnOk result (rows.new.items ≡ rows.old.items ++ number_row (codes "pays") (drawn.now.den ∷ drawn.now.pays) ∷ []) }
{
    let mut numbers = Vec::new(alloc);
    numbers.push(drawn.den)?;
    numbers.extend_from_slice(drawn.pays.as_slice())?;
    push_numbers(alloc, rows, "pays", &numbers)
}
