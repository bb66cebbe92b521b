//! Whether reports are in their ranges.
ghost use Rattle.std.specs.Prelude.{◌≡◌, ◌<◌, ◌↔◌, IsTrue, length};
ghost use Rattle.md_space.specs.Profiles.{IsProfile};
ghost use Rattle.md_setting.specs.AuctionShaped.{IsAuction};
ghost use Rattle.md_run.specs.OfMasses.{AreReports};

use md_setting::Auction;
use md_space::Space;

/// Whether a list has one report of each agent of a space.
pub(crate) fn is_profile(space: &Space, reports: &[u8]) -> bool
    ensures { IsTrue result ↔ IsProfile space.now reports.now }
{
    if !has_length(reports, u32::from(space.agents())) {
        return false;
    }
    for agent in 0..space.agents() {
        if !is_below(reports[usize::from(agent)], u32::from(space.types(agent))) {
            return false;
        }
    }
    true
}

/// Whether a list has the place of a value for each bidder of an auction.
pub(crate) fn are_reports(auction: &Auction, reports: &[u8]) -> bool
    ensures reports { IsTrue result ↔ AreReports auction.now reports.now }
    ensures shaped { IsAuction auction.now }
{
    if !has_length(reports, auction.bidders()) {
        return false;
    }
    for report in reports {
        if !is_below(*report, auction.kinds()) {
            return false;
        }
    }
    true
}

fn has_length(reports: &[u8], count: u32) -> bool
    ensures { IsTrue result ↔ (length reports.now ≡ count) }
{
    reports.len() == count as usize
}

fn is_below(report: u8, end: u32) -> bool
    ensures { IsTrue result ↔ (report < end) }
{
    u32::from(report) < end
}
