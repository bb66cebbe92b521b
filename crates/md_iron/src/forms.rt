//! Closed forms.
ghost use Rattle.std.specs.Prelude.{IfOk, MatchOption};
ghost use Rattle.md_setting.specs.AuctionShaped.{IsAuction};
ghost use Rattle.md_unit_tables.specs.Numbers.{IsUnitNumber};
ghost use Rattle.md_iron.specs.ClosedForms.{HasLongMultipliers, IsForm};

use crate::bounds::closed_bound;
use md_border::Interim;
use md_cert::Bound;
use md_iron_pools::{cuts, interim, pool};
use md_lp::Sets;
use md_num::NoMemory;
use md_setting::Auction;
use std::alloc::Global;

/// What the pools of an auction say of its best mechanism.
#[derive(Drop)]
pub(crate) struct ClosedForm {
    /// How often each bidder wins and what it pays, by its value.
    pub(crate) interim: Interim,
    /// The sets of values that pools use up.
    pub(crate) cuts: Sets,
    /// The multipliers that certify them.
    pub(crate) bound: Bound,
}

/// The closed form of an auction in which so many units are sold; none where its multipliers are too long.
pub(crate) fn closed_form(
    alloc: Global,
    auction: &Auction,
    units: u32,
) -> Result<Option<ClosedForm>, NoMemory>
    requires { IsUnitNumber units }
    ensures closed { IfOk result (λ form. MatchOption form (HasLongMultipliers auction.now units) (IsForm auction.now units)) }
    ensures shaped { IfOk result (λ _. IsAuction auction.now) }
{
    let _shaped = auction.kinds();
    let pools = pool(alloc, auction)?;
    let cuts = cuts(alloc, auction, &pools)?;
    let Some(bound) = closed_bound(alloc, auction, units, &pools, &cuts)? else {
        return Ok(None);
    };
    let interim = interim(alloc, auction, &pools, units)?;
    Ok(Some(ClosedForm {
        interim,
        cuts,
        bound,
    }))
}
