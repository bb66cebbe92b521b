//! The command `units`: the best mechanism that sells some identical units to bidders who each want one.
ghost use Rattle.std.specs.Prelude.{IfOk};
ghost use Rattle.md_cli_driver.specs.Reading.{is_auction};
ghost use Rattle.md_cli_driver.specs.Saying.{said};
ghost use Rattle.md_cli_sell.specs.SellingUnits.{IsUnitSelling, IsUnits, IsUnitsStatus};

use crate::units_text::answer_text;
use md_answer::{Answer, Supply, write_auction_answer};
use md_cli_driver::{Answered, DONE, OneFile, Refusal, TOO_WIDE, auction, is_auction};
use md_num::{NoMemory, Width};
use md_setting::{Auction, SettingFile};
use md_unit_tables::UnitNumber;
use md_units::{UnitsError, solve_units};
use std::alloc::Global;

/// `units SETTING NUMBER [--width W]`
#[derive(Drop)]
pub struct Units {
    /// How many units are sold.
    pub units: UnitNumber,
    /// How many bits the numbers of a basis may have.
    pub width: Width,
}

impl OneFile for Units {
    ghost is_served = { is_auction };

    ghost says = { λ command. IsUnits command.units command.width };

    ghost own = { IsUnitsStatus };

    fn serves(&self, file: &SettingFile) -> bool {
        is_auction(file)
    }

    fn answer(&self, alloc: Global, file: &SettingFile) -> Result<Answered, Refusal> {
        Ok(sold(alloc, auction(file), &self.units, self.width)?)
    }
}

// The best mechanism of the units within a width.
fn sold(
    alloc: Global,
    auction: &Auction,
    units: &UnitNumber,
    width: Width,
) -> Result<Answered, NoMemory>
    ensures selling { IfOk result (λ answered. IsUnitSelling auction.now units.now width (said answered)) }
    ensures status { IfOk result (λ answered. IsUnitsStatus answered.status) }
{
    let _shaped = auction.kinds();
    match solve_units(alloc, auction, units.get(), width) {
        Ok(answer) => Ok(Answered {
            status: DONE,
            text: answer_text(alloc, auction, units, answer)?,
        }),
        Err(
            UnitsError::TooWide {
                cuts,
                first,
                second,
            },
        ) => {
            let answer = Answer::TooWide {
                cuts,
                first,
                second: Some(second),
            };
            let supply = Supply::Units(*units);
            Ok(Answered {
                status: TOO_WIDE,
                text: write_auction_answer(alloc, auction, &supply, &answer)?,
            })
        }
        Err(UnitsError::Memory) => Err(NoMemory),
    }
}
