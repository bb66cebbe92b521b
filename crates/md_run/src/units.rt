//! Who gets a unit, drawn of a unit table of an auction.
ghost use Rattle.std.specs.Prelude.{◌≡◌, ◌⊎◌, ℕ, ◌*◌, ◌/◌, ◌^◌, ◌<◌, ◌≤◌, ◌↔◌, pos, ◌+ℤ◌, ◌*ℤ◌, ◌≤ℤ◌, ◌<ℤ◌, IsTrue, IfOk, IfErr, unsigned_abs};
ghost use Rattle.md_setting.specs.Auction.{value_count};
ghost use Rattle.md_setting.specs.AuctionShaped.{IsAuction};
ghost use Rattle.md_border.specs.Odds.{IsInterim};
ghost use Rattle.md_counts.specs.Weights.{count_in, counts_of};
ghost use Rattle.md_expost.specs.Masses.{rank_count, counts_in};
ghost use Rattle.md_unit_tables.specs.Tables.{IsUnitTable};
ghost use Rattle.md_run.specs.OfMasses.{AreReports, cap_for, mass_for};
ghost use Rattle.md_run.specs.OfMechanism.{IsDraw};
ghost use Rattle.md_run.specs.OfUnits.{IsUnitsDrawn, draws_each, draws_for, winners_at};
ghost use Rattle.md_run.specs.Refusals.{IsRefusedBy};

use crate::auction::{at_counts, pays};
use crate::bidders::count_of;
use crate::general::is_draw;
use crate::reports::are_reports;
use crate::{DrawRefusal, UnitsDrawn};
use md_border::Interim;
use md_expost::Masses;
use md_num::{NoMemory, product};
use md_setting::Auction;
use std::alloc::Global;

/// What two draws give of a unit table at a profile of reported values.
pub(crate) fn draw_units_at(
    alloc: Global,
    auction: &Auction,
    interim: &Interim,
    masses: &Masses,
    profile: &[u8],
    d1: i128,
    d2: i128,
) -> Result<UnitsDrawn, DrawRefusal>
    requires interim { IsInterim auction.now interim.now }
    requires masses { (units : ℕ) × IsUnitTable auction.now units masses.now }
    requires den { masses.now.den ≡ interim.now.den }
    ensures drawn { IfOk result (IsUnitsDrawn auction.now interim.now masses.now profile.now d1 d2) }
    ensures refused { IfErr result (IsRefusedBy (AreReports auction.now profile.now) (IsDraw (pos (draws_for auction.now masses.now.den profile.now)) d1 d2)) }
    ensures shaped { IsAuction auction.now }
{
    if !are_reports(auction, profile) {
        return Err(DrawRefusal::Profile);
    }
    let Ok(at) = at_counts(alloc, auction, masses.den, profile) else {
        return Err(DrawRefusal::Memory);
    };
    let draws = draws_for(at.cap);
    if !is_draw(draws, d1, d2) {
        return Err(DrawRefusal::Draw);
    }
    let Ok(wins) = winners(alloc, auction, masses, at.rank, profile, draws, d1) else {
        return Err(DrawRefusal::Memory);
    };
    let Ok(pays) = pays(alloc, auction, interim, profile) else {
        return Err(DrawRefusal::Memory);
    };
    Ok(UnitsDrawn {
        wins,
        pays,
        den: interim.den,
    })
}

// Each unit of mass is so many draws.
#[tactic(auto, unfolding(crate::specs::OfUnits::draws_each))]
fn draws_each() -> u32
    ensures value { result ≡ draws_each }
    ensures number { result ≡ 27720 }
{
    27720
}

// How many draws there are where so much is to be given.
fn draws_for(cap: i128) -> i128
    requires from { pos 0 ≤ℤ cap }
    requires size { cap ≤ℤ pos (2 ^ 102) }
    ensures value { result ≡ pos (unsigned_abs cap * draws_each) }
    ensures size { result ≤ℤ pos (2 ^ 102 * 27720) }
{
    product(cap, i128::from(draws_each()))
}

// Who gets a unit by a draw. What is kept on the way is how far it is, from where the stretch of a bidder begins, to the first
// number that the draw picks from there on.
fn winners(
    alloc: Global,
    auction: &Auction,
    masses: &Masses,
    rank: u32,
    profile: &[u8],
    draws: i128,
    draw: i128,
) -> Result<Vec<bool>, NoMemory>
    requires masses { (units : ℕ) × IsUnitTable auction.now units masses.now }
    requires den_small { masses.now.den ≤ℤ pos 4611686018427387903 }
    requires reports { AreReports auction.now profile.now }
    requires rank_in { rank < rank_count auction.now }
    requires counts { counts_in auction.now rank ≡ counts_of (value_count auction.now) profile.now }
    requires draws { draws ≡ pos (draws_for auction.now masses.now.den profile.now) }
    requires size { draws ≤ℤ pos (2 ^ 102 * 27720) }
    requires draw { IsDraw draws draw (pos 0) }
    ensures { IfOk result (λ wins. wins.items ≡ winners_at auction.now masses.now profile.now (unsigned_abs draw)) }
{
    let mut wins = Vec::new(alloc);
    let mut left = draw;
    for report in profile {
        let stretch = stretch(auction, masses, rank, profile, *report);
        wins.push(is_less(left, stretch))?;
        left = left_after(left, stretch, draws);
    }
    Ok(wins)
}

// How long the stretch of a bidder is that reports a value: its part of the mass of the value.
fn stretch(auction: &Auction, masses: &Masses, rank: u32, profile: &[u8], report: u8) -> i128
    requires masses { (units : ℕ) × IsUnitTable auction.now units masses.now }
    requires den_small { masses.now.den ≤ℤ pos 4611686018427387903 }
    requires reports { AreReports auction.now profile.now }
    requires rank_in { rank < rank_count auction.now }
    requires counts { counts_in auction.now rank ≡ counts_of (value_count auction.now) profile.now }
    requires report_in { report < value_count auction.now }
    requires some { 0 < count_in report profile.now }
    ensures value { result ≡ pos (unsigned_abs (mass_for auction.now masses.now profile.now report) * (draws_each / count_in report profile.now)) }
    ensures shaped { IsAuction auction.now }
{
    let kind = u32::from(report);
    let mass = masses.rows.get((rank * auction.kinds() + kind) as usize);
    product(mass, i128::from(draws_each() / count_of(profile, kind)))
}

fn is_less(left: i128, stretch: i128) -> bool
    ensures { IsTrue result ↔ (left <ℤ stretch) }
{
    left < stretch
}

// How far it is from the end of a stretch: as far as before, less the stretch; where the number lies in the stretch, to the next one
// that the draw picks, as many further as there are draws.
fn left_after(left: i128, stretch: i128, draws: i128) -> i128
    requires from { pos 0 ≤ℤ left }
    requires below { left <ℤ draws }
    requires stretch { (pos 0 ≤ℤ stretch) × (stretch ≤ℤ draws) }
    requires size { draws ≤ℤ pos (2 ^ 102 * 27720) }
    ensures { ((stretch ≤ℤ left) × (result +ℤ stretch ≡ left)) ⊎ ((left <ℤ stretch) × (result +ℤ stretch ≡ left +ℤ draws)) }
{
    if left < stretch {
        left + (draws - stretch)
    } else {
        left - stretch
    }
}
