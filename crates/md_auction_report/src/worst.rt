//! The greatest gain and the greatest loss.
ghost use Rattle.std.specs.Prelude.{◌≡◌, ◌≤◌, length};
ghost use Rattle.md_setting.specs.Auction.{value_count};
ghost use Rattle.md_setting.specs.AuctionShaped.{IsAuction};
ghost use Rattle.md_lp.specs.Cuts.{AreCuts};
ghost use Rattle.md_border.specs.Odds.{IsInterim};
ghost use Rattle.md_reduced.specs.Conditions.{truths, rationals};
ghost use Rattle.md_auction_report.specs.Greatest.{IsGreatest, IsGreatestOf};

use crate::greatest::Greatest;
use crate::greatest_rows::greatest_of;
use md_border::Interim;
use md_lp::Sets;
use md_setting::Auction;

/// The value that is told for another one by which most is gained, where there are several values.
pub(crate) fn gain(
    auction: &Auction,
    units: u32,
    interim: &Interim,
    cuts: &Sets,
) -> Option<Greatest>
    requires few_units { units ≤ 12 }
    requires fits { IsInterim auction.now interim.now }
    requires cuts { AreCuts (value_count auction.now) cuts.now }
    ensures { IsGreatestOf auction.now units interim.now (truths (value_count auction.now)) result }
{
    let truths = truth_rows(auction);
    if truths == 0 {
        return None;
    }
    Some(greatest_of(auction, units, interim, cuts, 0, truths))
}

/// The value with which a bidder misses most of nothing.
pub(crate) fn loss(auction: &Auction, units: u32, interim: &Interim, cuts: &Sets) -> Greatest
    requires few_units { units ≤ 12 }
    requires fits { IsInterim auction.now interim.now }
    requires cuts { AreCuts (value_count auction.now) cuts.now }
    ensures { IsGreatest auction.now units interim.now (rationals (value_count auction.now)) result }
{
    let start = truth_rows(auction);
    greatest_of(
        auction,
        units,
        interim,
        cuts,
        start,
        start + auction.kinds(),
    )
}

// How many conditions there are on truth.
fn truth_rows(auction: &Auction) -> u32
    ensures count { result ≡ length (truths (value_count auction.now)) }
    ensures few { result ≤ 132 }
    ensures shaped { IsAuction auction.now }
{
    let kinds = auction.kinds();
    kinds * (kinds - 1)
}
