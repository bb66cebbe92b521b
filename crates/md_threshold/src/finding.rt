//! The threshold auction of some units.
ghost use Rattle.std.specs.Prelude.{◌≤◌, IfOk};
ghost use Rattle.md_threshold.specs.Thresholds.{IsThreshold};

use crate::Threshold;
use crate::amount::Amount;
use crate::expected::{expected, value};
use md_iron_pools::{interim, pool};
use md_num::NoMemory;
use md_setting::Auction;
use std::alloc::Global;

/// The pools that the rule of ironing names, and what the threshold auction of 1 to 12 units with these pools is worth. No mechanism
/// that is truthful and rational on average is worth more, and this one is so whatever the others report.
pub fn threshold_units(alloc: Global, auction: &Auction, units: u32) -> Result<Threshold, NoMemory>
    requires { (1 ≤ units) × (units ≤ 12) }
    ensures { IfOk result (IsThreshold auction.now units) }
{
    let _shaped = auction.kinds();
    let pools = pool(alloc, auction)?;
    let interim = interim(alloc, auction, &pools, units)?;
    Ok(Threshold {
        value: value(auction, units, &interim),
        revenue: expected(auction, &interim, Amount::Payment),
        welfare: expected(auction, &interim, Amount::Item),
        pools,
    })
}
