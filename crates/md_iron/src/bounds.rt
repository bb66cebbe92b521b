//! The multipliers that certify pools, over one denominator.
ghost use Rattle.std.specs.Prelude.{◌≡◌, length, IfOk, MatchOption};
ghost use Rattle.md_setting.specs.Auction.{value_count};
ghost use Rattle.md_lp.specs.Cuts.{AreCuts};
ghost use Rattle.md_iron_values.specs.Cuts.{cuts_of};
ghost use Rattle.md_iron_pools.specs.Pooling.{IsPooling, pools_of};
ghost use Rattle.md_unit_tables.specs.Numbers.{IsUnitNumber};
ghost use Rattle.md_iron.specs.ShortBounds.{HasNoShortBound, IsClosedBound};

use crate::rows::multipliers;
use crate::shares::over_one;
use md_cert::Bound;
use md_iron_pools::AuctionPools;
use md_lp::Sets;
use md_num::NoMemory;
use md_reduced::program_for;
use md_setting::Auction;
use std::alloc::Global;

/// The bound of pools with their cuts where so many units are sold; none where its multipliers are too long.
pub(crate) fn closed_bound(
    alloc: Global,
    auction: &Auction,
    units: u32,
    pools: &AuctionPools,
    cuts: &Sets,
) -> Result<Option<Bound>, NoMemory>
    requires units { IsUnitNumber units }
    requires pooling { IsPooling auction.now pools.now }
    requires cuts { cuts.now ≡ cuts_of (value_count auction.now) (pools_of pools.now) }
    requires are_cuts { AreCuts (value_count auction.now) cuts.now }
    ensures { IfOk result (λ bound. MatchOption bound (HasNoShortBound auction.now units (pools_of pools.now)) (IsClosedBound auction.now units (pools_of pools.now))) }
{
    let _shaped = auction.kinds();
    let lp = program_for(alloc, auction, units, cuts)?;
    let fractions = multipliers(alloc, auction, units, pools, cuts, &lp)?;
    over_one(alloc, fractions.as_slice())
}
