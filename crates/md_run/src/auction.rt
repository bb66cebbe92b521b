//! What is drawn of a mass table of an auction.
ghost use Rattle.std.specs.Prelude.{◌≡◌, ◌<◌, ◌≤◌, ◌↔◌, pos, ◌≤ℤ◌, ◌<ℤ◌, IsTrue, MatchOption, IfOk, IfErr, slice_index};
ghost use Rattle.md_math.specs.Lists.{list_to, number_at};
ghost use Rattle.md_setting.specs.Auction.{value_count};
ghost use Rattle.md_setting.specs.AuctionShaped.{IsAuction};
ghost use Rattle.md_border.specs.Odds.{IsInterim};
ghost use Rattle.md_counts.specs.Weights.{counts_of};
ghost use Rattle.md_expost.specs.Masses.{AreMasses, rank_count, counts_in};
ghost use Rattle.md_run.specs.OfMasses.{AreReports, IsAuctionDraw, IsAuctionDrawn, IsOutcome, IsSecondDraw, cap_for};
ghost use Rattle.md_run.specs.Refusals.{IsRefusedBy};

use crate::bidders::{bidder_of, counts_of};
use crate::lottery::drawn_place;
use crate::reports::are_reports;
use crate::{DrawRefusal, Drawn};
use md_border::Interim;
use md_counts::Counts;
use md_expost::Masses;
use md_num::{NoMemory, Nums, product};
use md_setting::Auction;
use std::alloc::Global;

/// The counts of a profile: their rank, and what there is to give at them.
#[derive(Drop)]
pub(crate) struct AtCounts {
    pub(crate) rank: u32,
    pub(crate) cap: i128,
}

/// What two draws give of a mass table at a profile of reported values.
pub(crate) fn draw_at(
    alloc: Global,
    auction: &Auction,
    interim: &Interim,
    masses: &Masses,
    profile: &[u8],
    d1: i128,
    d2: i128,
) -> Result<Drawn, DrawRefusal>
    requires interim { IsInterim auction.now interim.now }
    requires masses { AreMasses auction.now masses.now }
    ensures drawn { IfOk result (IsAuctionDrawn auction.now interim.now masses.now profile.now d1 d2) }
    ensures refused { IfErr result (IsRefusedBy (AreReports auction.now profile.now) (IsAuctionDraw auction.now masses.now profile.now d1 d2)) }
    ensures shaped { IsAuction auction.now }
{
    if !are_reports(auction, profile) {
        return Err(DrawRefusal::Profile);
    }
    let Ok(at) = at_counts(alloc, auction, masses.den, profile) else {
        return Err(DrawRefusal::Memory);
    };
    if !is_draw(at.cap, d1) {
        return Err(DrawRefusal::Draw);
    }
    let Some(outcome) = outcome(auction, masses, at.rank, profile, d1, d2) else {
        return Err(DrawRefusal::Draw);
    };
    let Ok(pays) = pays(alloc, auction, interim, profile) else {
        return Err(DrawRefusal::Memory);
    };
    Ok(Drawn {
        outcome,
        pays,
        den: interim.den,
    })
}

/// The counts of a profile.
pub(crate) fn at_counts(
    alloc: Global,
    auction: &Auction,
    den: i128,
    profile: &[u8],
) -> Result<AtCounts, NoMemory>
    requires den_small { (pos 1 ≤ℤ den) × (den ≤ℤ pos 4611686018427387903) }
    requires reports { AreReports auction.now profile.now }
    ensures shaped { IsAuction auction.now }
    ensures below { IfOk result (λ at. at.rank < rank_count auction.now) }
    ensures counts { IfOk result (λ at. counts_in auction.now at.rank ≡ counts_of (value_count auction.now) profile.now) }
    ensures cap { IfOk result (λ at. at.cap ≡ cap_for auction.now den profile.now) }
{
    let lists = Counts::of(alloc, auction)?;
    let counts = counts_of(alloc, profile, auction.kinds())?;
    let rank = lists.rank(&counts);
    let weight = lists.weight(rank, auction.weights());
    Ok(AtCounts {
        rank,
        cap: product(den, i128::from(weight)),
    })
}

// Whether the first draw is one of as many as there are units to give.
fn is_draw(cap: i128, d1: i128) -> bool
    ensures { IsTrue result ↔ ((pos 0 ≤ℤ d1) × (d1 <ℤ cap)) }
{
    0 <= d1 && d1 < cap
}

// Who gets the item, or that it is kept; None where the second draw is out of range.
fn outcome(
    auction: &Auction,
    masses: &Masses,
    rank: u32,
    profile: &[u8],
    d1: i128,
    d2: i128,
) -> Option<u32>
    requires masses { AreMasses auction.now masses.now }
    requires reports { AreReports auction.now profile.now }
    requires rank_in { rank < rank_count auction.now }
    requires counts { counts_in auction.now rank ≡ counts_of (value_count auction.now) profile.now }
    requires from { pos 0 ≤ℤ d1 }
    ensures { MatchOption result (¬ IsSecondDraw auction.now masses.now profile.now d1 d2) (λ outcome. IsOutcome auction.now masses.now profile.now d1 d2 outcome × IsSecondDraw auction.now masses.now profile.now d1 d2) }
{
    match drawn_place(&masses.rows, rank, auction.kinds(), d1) {
        Some(kind) => match bidder_of(profile, kind, d2) {
            Some(bidder) => Some(bidder + 1),
            None => None,
        },
        None => {
            if !is_zero(d2) {
                return None;
            }
            Some(0)
        }
    }
}

fn is_zero(number: i128) -> bool
    ensures { IsTrue result ↔ (number ≡ pos 0) }
{
    number == 0
}

/// What each bidder pays.
pub(crate) fn pays(
    alloc: Global,
    auction: &Auction,
    interim: &Interim,
    profile: &[u8],
) -> Result<Nums, NoMemory>
    requires interim { IsInterim auction.now interim.now }
    requires reports { AreReports auction.now profile.now }
    ensures { IfOk result (λ pays. pays ≡ list_to auction.now.bidders (λ i. number_at interim.now.pays (slice_index profile.now i))) }
{
    let _bidders = auction.bidders();
    let mut pays = Nums::new(alloc);
    for report in profile {
        pays.push(interim.pays.get(usize::from(*report)))?;
    }
    Ok(pays)
}
