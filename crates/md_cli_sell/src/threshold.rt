//! The command `threshold`: the best auction of some identical units in which only winners pay.
ghost use Rattle.std.specs.Prelude.{◌≡◌, ◌==◌, [], All, map, IfOk, if◌then◌else◌};
ghost use Rattle.md_unit_tables.specs.Numbers.{IsUnitNumber};
ghost use Rattle.md_iron_pools.specs.Pooling.{IsPooling, pools_of};
ghost use Rattle.md_threshold.specs.PriceLists.{IsCasePrice, all_cases, case_of};
ghost use Rattle.md_cli_driver.specs.Reading.{is_auction};
ghost use Rattle.md_cli_driver.specs.Saying.{said};
ghost use Rattle.md_cli_sell.specs.Thresholding.{IsThresholdSaying, IsThresholdStatus, IsThresholding};

use crate::threshold_text::threshold_text;
use md_cli_driver::{Answered, DONE, OneFile, Refusal, auction, is_auction};
use md_iron_pools::AuctionPools;
use md_num::NoMemory;
use md_setting::{Auction, SettingFile};
use md_threshold::{Price, one_unit_prices, threshold_units};
use md_unit_tables::UnitNumber;
use std::alloc::Global;

/// `threshold SETTING NUMBER`
#[derive(Drop)]
pub struct ThresholdSale {
    /// How many units are sold.
    pub units: UnitNumber,
}

impl OneFile for ThresholdSale {
    ghost is_served = { is_auction };

    ghost says = { λ command. IsThresholding command.units };

    ghost own = { IsThresholdStatus };

    fn serves(&self, file: &SettingFile) -> bool {
        is_auction(file)
    }

    fn answer(&self, alloc: Global, file: &SettingFile) -> Result<Answered, Refusal> {
        Ok(sold(alloc, auction(file), self.units.get())?)
    }
}

// The threshold auction of the units.
fn sold(alloc: Global, auction: &Auction, units: u32) -> Result<Answered, NoMemory>
    requires { IsUnitNumber units }
    ensures selling { IfOk result (λ answered. IsThresholdSaying auction.now units (said answered)) }
    ensures status { IfOk result (λ answered. answered.status ≡ 0) }
{
    let _shaped = auction.kinds();
    let threshold = threshold_units(alloc, auction, units)?;
    let prices = prices_of(alloc, auction, units, &threshold.pools)?;
    Ok(Answered {
        status: DONE,
        text: threshold_text(alloc, auction, units, &threshold, &prices)?,
    })
}

// The prices of one unit; several units have none.
fn prices_of(
    alloc: Global,
    auction: &Auction,
    units: u32,
    pools: &AuctionPools,
) -> Result<Vec<Price>, NoMemory>
    requires { IsPooling auction.now pools.now }
    ensures cases { IfOk result (λ prices. map case_of prices.items ≡ (if units == 1 then all_cases auction.now (pools_of pools.now) else [])) }
    ensures right { IfOk result (λ prices. All (IsCasePrice auction.now (pools_of pools.now)) prices.items) }
{
    if units != 1 {
        return Ok(Vec::new(alloc));
    }
    one_unit_prices(alloc, auction, pools)
}
