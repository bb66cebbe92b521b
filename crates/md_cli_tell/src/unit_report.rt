//! The command `report` with a number of units: what an answer about their sale does, and how far it is from truthful.
ghost use Rattle.std.specs.Prelude.{◌≡◌, true, IfOk};
ghost use Rattle.md_answer.specs.AuctionAnswerTo.{IsAnswerFor};
ghost use Rattle.md_answer.specs.declared.supply.Supply.TheVariants.{Units};
ghost use Rattle.md_cli_driver.specs.Reading.{is_auction};
ghost use Rattle.md_cli_tell.specs.Drawing.{has_table};
ghost use Rattle.md_cli_tell.specs.UnitAnswers.{HasUnitTable, unit_table_in};
ghost use Rattle.md_cli_tell.specs.UnitReporting.{IsUnitReportStatus, IsUnitReporting, TellsUnits};

use crate::report::interim_text;
use crate::unit_answer::read_unit_table;
use md_answer::{Answer, Supply};
use md_cli_driver::{Answered, DONE, Refusal, TwoFiles, auction, is_auction};
use md_num::NoMemory;
use md_setting::{Auction, SettingFile};
use md_unit_tables::UnitNumber;
use std::alloc::Global;

/// `report SETTING ANSWER --units NUMBER`
#[derive(Drop)]
pub struct TellUnits {
    /// How many units are sold.
    pub units: UnitNumber,
}

impl TwoFiles for TellUnits {
    type Second = Answer;

    ghost is_served = { is_auction };

    ghost reading = { λ command. unit_table_in command.units };

    ghost fits = { λ command. HasUnitTable command.units };

    ghost says = { λ command. IsUnitReporting command.units };

    ghost own = { IsUnitReportStatus };

    fn serves(&self, file: &SettingFile) -> bool {
        is_auction(file)
    }

    fn second(&self, alloc: Global, file: &SettingFile, bytes: &[u8]) -> Result<Answer, Refusal> {
        read_unit_table(alloc, file, &self.units, bytes)
    }

    fn answer(
        &self,
        alloc: Global,
        file: &SettingFile,
        answer: &Answer,
    ) -> Result<Answered, Refusal> {
        Ok(told(alloc, auction(file), &self.units, answer)?)
    }
}

// What is told of an answer about so many units.
fn told(
    alloc: Global,
    auction: &Auction,
    units: &UnitNumber,
    answer: &Answer,
) -> Result<Answered, NoMemory>
    requires answer { IsAnswerFor (Units units.now) auction.now answer.now }
    requires table { has_table answer.now ≡ true }
    ensures text { IfOk result (λ answered. TellsUnits units.now auction.now answer.now answered.text.items) }
    ensures status { IfOk result (λ answered. answered.status ≡ 0) }
{
    match answer {
        Answer::AuctionOptimal { interim, cuts, .. } => {
            let supply = Supply::Units(*units);
            Ok(Answered {
                status: DONE,
                text: interim_text(alloc, auction, &supply, interim, cuts)?,
            })
        }
        _ => unreachable!(),
    }
}
