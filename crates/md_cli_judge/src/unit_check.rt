//! The command `check` with a number of units: whether what an answer claims of a sale of some identical units is so.
ghost use Rattle.std.specs.Prelude.{◌≡◌, true, IfOk};
ghost use Rattle.md_setting.specs.ByKind.{WhereAuction};
ghost use Rattle.md_answer.specs.AuctionAnswerTo.{IsAnswerFor};
ghost use Rattle.md_answer.specs.declared.supply.Supply.TheVariants.{Units};
ghost use Rattle.md_cli_driver.specs.Reading.{is_auction};
ghost use Rattle.md_cli_driver.specs.Saying.{said};
ghost use Rattle.md_cli_judge.specs.UnitChecking.{IsUnitCheck, unit_answer_in};
ghost use Rattle.md_cli_judge.specs.Verdicts.{IsCheckStatus};

use crate::verdict_text::tell_verdict;
use md_answer::{Answer, Supply, read_auction_answer};
use md_check::check_auction;
use md_cli_driver::{Answered, Refusal, TwoFiles, auction, is_auction};
use md_num::NoMemory;
use md_setting::SettingFile;
use md_unit_tables::UnitNumber;
use std::alloc::Global;

/// `check SETTING ANSWER --units NUMBER`
#[derive(Drop)]
pub struct CheckUnits {
    /// How many units are sold.
    pub units: UnitNumber,
}

impl TwoFiles for CheckUnits {
    type Second = Answer;

    ghost is_served = { is_auction };

    ghost reading = { λ command. unit_answer_in command.units };

    ghost fits = { λ command file answer. WhereAuction (λ a. IsAnswerFor (Units command.units) a answer) file };

    ghost says = { λ command. IsUnitCheck command.units };

    ghost own = { IsCheckStatus };

    fn serves(&self, file: &SettingFile) -> bool {
        is_auction(file)
    }

    fn second(&self, alloc: Global, file: &SettingFile, bytes: &[u8]) -> Result<Answer, Refusal> {
        let supply = Supply::Units(self.units);
        Ok(read_auction_answer(alloc, bytes, auction(file), &supply)?)
    }

    fn answer(
        &self,
        alloc: Global,
        file: &SettingFile,
        answer: &Answer,
    ) -> Result<Answered, Refusal> {
        Ok(checked(alloc, file, &self.units, answer)?)
    }
}

// The verdict on an answer about so many units.
fn checked(
    alloc: Global,
    file: &SettingFile,
    units: &UnitNumber,
    answer: &Answer,
) -> Result<Answered, NoMemory>
    requires auction { is_auction file.now ≡ true }
    requires answer { WhereAuction (λ a. IsAnswerFor (Units units.now) a answer.now) file.now }
    ensures checked { IfOk result (λ answered. IsUnitCheck units.now file.now answer.now (said answered)) }
    ensures status { IfOk result (λ answered. IsCheckStatus answered.status) }
{
    let supply = Supply::Units(*units);
    let verdict = check_auction(alloc, auction(file), &supply, answer)?;
    tell_verdict(alloc, file, verdict)
}
