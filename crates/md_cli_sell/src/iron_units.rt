//! The command `ironunits`: the best sale of some identical units in closed form.
ghost use Rattle.std.specs.Prelude.{IfOk};
ghost use Rattle.md_cli_driver.specs.Reading.{is_auction};
ghost use Rattle.md_cli_driver.specs.Saying.{said};
ghost use Rattle.md_cli_sell.specs.Ironing.{IsIronStatus};
ghost use Rattle.md_cli_sell.specs.IroningUnits.{IsIronUnits, IsUnitIroning};

use crate::units_text::answer_text;
use md_cli_driver::{Answered, DONE, OneFile, Refusal, UNDECIDED, auction, is_auction};
use md_iron::iron_units;
use md_num::NoMemory;
use md_setting::{Auction, SettingFile};
use md_unit_tables::UnitNumber;
use std::alloc::Global;

/// `ironunits SETTING NUMBER`
#[derive(Drop)]
pub struct IronUnits {
    /// How many units are sold.
    pub units: UnitNumber,
}

impl OneFile for IronUnits {
    ghost is_served = { is_auction };

    ghost says = { λ command. IsIronUnits command.units };

    ghost own = { IsIronStatus };

    fn serves(&self, file: &SettingFile) -> bool {
        is_auction(file)
    }

    fn answer(&self, alloc: Global, file: &SettingFile) -> Result<Answered, Refusal> {
        Ok(sold(alloc, auction(file), &self.units)?)
    }
}

// The closed form of the units, or that its multipliers are too long.
fn sold(alloc: Global, auction: &Auction, units: &UnitNumber) -> Result<Answered, NoMemory>
    ensures ironing { IfOk result (λ answered. IsUnitIroning auction.now units.now (said answered)) }
    ensures status { IfOk result (λ answered. IsIronStatus answered.status) }
{
    match iron_units(alloc, auction, units.get())? {
        Some(answer) => Ok(Answered {
            status: DONE,
            text: answer_text(alloc, auction, units, answer)?,
        }),
        None => Ok(Answered {
            status: UNDECIDED,
            text: b"undecided\n".to_vec(alloc)?,
        }),
    }
}
