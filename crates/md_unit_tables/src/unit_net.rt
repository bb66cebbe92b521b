//! The net of an auction of several units with interim odds: a source node for each list of counts, and a demand for each kind of value.
ghost use Rattle.std.specs.Prelude.{◌≡◌, ◌≤◌, ◌<◌, ◌++◌, pos, ◌*ℤ◌, ◌≤ℤ◌, IfOk};
ghost use Rattle.md_math.specs.Lists.{list_to, up_to};
ghost use Rattle.md_setting.specs.Auction.{value_count};
ghost use Rattle.md_border.specs.Odds.{IsInterim};
ghost use Rattle.md_expost.specs.Masses.{rank_count, cap_at};
ghost use Rattle.md_unit_tables.specs.Tables.{room_at};
ghost use Rattle.md_unit_tables.specs.UnitNets.{IsUnitNetOf};

use md_border::Interim;
use md_counts::Counts;
use md_expost::{cap, demands};
use md_flow::Net;
use md_num::{NoMemory, Nums, product};
use md_setting::Auction;
use std::alloc::Global;

/// The net whose flows are the unit tables with the odds.
pub(crate) fn net_of(
    alloc: Global,
    auction: &Auction,
    counts: &Counts,
    units: u32,
    interim: &Interim,
) -> Result<Net, NoMemory>
    requires bidders { counts.now.bidders ≡ auction.now.bidders }
    requires kinds { counts.now.kinds ≡ value_count auction.now }
    requires units { units ≤ 12 }
    requires fits { IsInterim auction.now interim.now }
    ensures { IfOk result (IsUnitNetOf auction.now units interim.now) }
{
    let caps = caps(alloc, auction, counts, units, interim.den)?;
    let demands = demands(alloc, auction, interim)?;
    let rooms = rooms(alloc, auction, counts, interim.den)?;
    Ok(Net::with_rooms(caps, demands, rooms))
}

// The caps of all lists of counts: as many units as there are.
fn caps(
    alloc: Global,
    auction: &Auction,
    counts: &Counts,
    units: u32,
    den: i128,
) -> Result<Nums, NoMemory>
    requires bidders { counts.now.bidders ≡ auction.now.bidders }
    requires kinds { counts.now.kinds ≡ value_count auction.now }
    requires units { units ≤ 12 }
    requires den_small { (pos 1 ≤ℤ den) × (den ≤ℤ pos 4611686018427387903) }
    ensures { IfOk result (λ caps. caps ≡ list_to (rank_count auction.now) (λ rank. pos units *ℤ cap_at auction.now den rank)) }
{
    let mut caps = Nums::new(alloc);
    for rank in 0..counts.len() {
        caps.push(units_at(auction, counts, den, rank, units))?;
    }
    Ok(caps)
}

// The rooms of all lists of counts, one list after another.
fn rooms(alloc: Global, auction: &Auction, counts: &Counts, den: i128) -> Result<Nums, NoMemory>
    requires bidders { counts.now.bidders ≡ auction.now.bidders }
    requires kinds { counts.now.kinds ≡ value_count auction.now }
    requires den_small { (pos 1 ≤ℤ den) × (den ≤ℤ pos 4611686018427387903) }
    ensures { IfOk result (λ rooms. rooms ≡ up_to (rank_count auction.now) (λ rank. list_to (value_count auction.now) (room_at auction.now den rank))) }
{
    let mut rooms = Nums::new(alloc);
    for rank in 0..counts.len() {
        push_rooms(&mut rooms, auction, counts, den, rank)?;
    }
    Ok(rooms)
}

// Appends the rooms of a list of counts: a unit for each bidder with a value.
fn push_rooms(
    rooms: &mut Nums,
    auction: &Auction,
    counts: &Counts,
    den: i128,
    rank: u32,
) -> Result<(), NoMemory>
    requires bidders { counts.now.bidders ≡ auction.now.bidders }
    requires kinds { counts.now.kinds ≡ value_count auction.now }
    requires den_small { (pos 1 ≤ℤ den) × (den ≤ℤ pos 4611686018427387903) }
    requires rank_in { rank < rank_count auction.now }
    ensures { IfOk result (λ _. rooms.new ≡ rooms.old ++ list_to (value_count auction.now) (room_at auction.now den rank)) }
{
    for kind in 0..auction.kinds() {
        let bidders = counts.count(rank, kind);
        rooms.push(units_at(auction, counts, den, rank, bidders))?;
    }
    Ok(())
}

// As much as so many units are at the counts of a rank.
fn units_at(auction: &Auction, counts: &Counts, den: i128, rank: u32, units: u32) -> i128
    requires bidders { counts.now.bidders ≡ auction.now.bidders }
    requires kinds { counts.now.kinds ≡ value_count auction.now }
    requires den_small { (pos 1 ≤ℤ den) × (den ≤ℤ pos 4611686018427387903) }
    requires rank_in { rank < rank_count auction.now }
    requires units { units ≤ 12 }
    ensures { result ≡ pos units *ℤ cap_at auction.now den rank }
{
    product(i128::from(units), cap(auction, counts, den, rank))
}
