//! What the rows of the reduced program are multiplied by.
ghost use Rattle.std.specs.Prelude.{◌≡◌, ◌<◌, length, IfOk};
ghost use Rattle.md_setting.specs.Auction.{value_count};
ghost use Rattle.md_lp.specs.Cuts.{AreCuts};
ghost use Rattle.md_lp.specs.Program.{row_count};
ghost use Rattle.md_reduced.specs.Conditions.{conditions_of};
ghost use Rattle.md_reduced.specs.ProgramOf.{IsReducedProgram};
ghost use Rattle.md_iron_values.specs.Cuts.{cuts_of};
ghost use Rattle.md_iron_pools.specs.Pooling.{IsPooling, pools_of};
ghost use Rattle.md_unit_tables.specs.Numbers.{IsUnitNumber};
ghost use Rattle.md_iron.specs.RowMultipliers.{AreRowMultipliers, IsMultiplierAt};
ghost use Rattle.md_iron.specs.Shares.{AreLeastFractions, IsLeastFraction};

use crate::cut_rows::{cut_divisor, cut_multiplier};
use crate::truth_rows::{rational_multiplier, truth_multiplier};
use md_iron_pools::AuctionPools;
use md_lp::{Lp, Sets};
use md_num::{Frac, NoMemory};
use md_reduced::{ReducedCondition, condition_at};
use md_setting::Auction;
use std::alloc::Global;

/// What each row of the reduced program of so many units with the cuts of pools is multiplied by, as a fraction in least terms.
pub(crate) fn multipliers(
    alloc: Global,
    auction: &Auction,
    units: u32,
    pools: &AuctionPools,
    cuts: &Sets,
    lp: &Lp,
) -> Result<Vec<Frac>, NoMemory>
    requires units { IsUnitNumber units }
    requires pooling { IsPooling auction.now pools.now }
    requires cuts { cuts.now ≡ cuts_of (value_count auction.now) (pools_of pools.now) }
    requires are_cuts { AreCuts (value_count auction.now) cuts.now }
    requires program { IsReducedProgram auction.now units cuts.now lp.now }
    requires count { row_count lp.now ≡ length (conditions_of (value_count auction.now) cuts.now) }
    ensures count { IfOk result (λ fractions. length fractions.items ≡ row_count lp.now) }
    ensures least { IfOk result (λ fractions. AreLeastFractions fractions.items) }
    ensures multipliers { IfOk result (λ fractions. AreRowMultipliers auction.now units (pools_of pools.now) lp.now (row_count lp.now) fractions.items) }
{
    let mut fractions = Vec::new(alloc);
    for row in 0..lp.rows() {
        fractions.push(multiplier(auction, units, pools, cuts, lp, row))?;
    }
    Ok(fractions)
}

// What a row is multiplied by.
fn multiplier(
    auction: &Auction,
    units: u32,
    pools: &AuctionPools,
    cuts: &Sets,
    lp: &Lp,
    row: u32,
) -> Frac
    requires units { IsUnitNumber units }
    requires pooling { IsPooling auction.now pools.now }
    requires cuts { cuts.now ≡ cuts_of (value_count auction.now) (pools_of pools.now) }
    requires are_cuts { AreCuts (value_count auction.now) cuts.now }
    requires program { IsReducedProgram auction.now units cuts.now lp.now }
    requires row { row < row_count lp.now }
    requires condition { row < length (conditions_of (value_count auction.now) cuts.now) }
    ensures least { IsLeastFraction result }
    ensures multiplier { IsMultiplierAt auction.now units (pools_of pools.now) lp.now row result }
{
    let _shaped = auction.kinds();
    let factor = lp.cost_factor();
    match condition_at(auction, cuts, row) {
        ReducedCondition::Truth { kind, other } => {
            truth_multiplier(auction, pools, factor, kind, other)
        }
        ReducedCondition::Rational { kind } => rational_multiplier(auction, factor, kind),
        ReducedCondition::Cut { set } => {
            let start = set.trailing_zeros();
            let divisor = cut_divisor(auction, units, lp, row, set);
            cut_multiplier(auction, pools, factor, start, divisor)
        }
    }
}
