//! Printed values of auctions.
ghost use Rattle.std.specs.Prelude.{MatchOption};
ghost use Rattle.md_parts.specs.Fitting.{IsFraction};
ghost use Rattle.md_border.specs.Odds.{IsInterim};
ghost use Rattle.md_unit_tables.specs.Numbers.{IsUnitNumber};
ghost use Rattle.md_unit_tables.specs.Worth.{HasUnitWorth};
ghost use Rattle.md_check.specs.AuctionVerdicts.{IsOtherWorth};

use md_border::Interim;
use md_claims::is_same_number;
use md_num::Frac;
use md_setting::Auction;
use md_unit_tables::unit_worth;

/// The value of the odds and payments in least terms, where so many units are sold and the printed value is another number.
pub(crate) fn other_worth(
    auction: &Auction,
    units: u32,
    interim: &Interim,
    printed: &Frac,
) -> Option<Frac>
    requires units { IsUnitNumber units }
    requires interim { IsInterim auction.now interim.now }
    requires fraction { IsFraction printed.now.num printed.now.den }
    ensures { MatchOption result (HasUnitWorth auction.now units interim.now printed.now) (IsOtherWorth auction.now units interim.now printed.now) }
{
    let weight = auction.total();
    prove!(weight > 0);
    let found = unit_worth(auction, units, interim);
    if is_same_number(printed, &found) {
        None
    } else {
        Some(found)
    }
}
