//! The net of an auction with interim odds: a source node for each list of counts, and a demand for each kind of value.
ghost use Rattle.std.specs.Prelude.{◌≡◌, ℕ, ◌+◌, ◌^◌, ◌<◌, ◌≤◌, pos, ◌≤ℤ◌, nat_lt, length, slice_index, IfOk};
ghost use Rattle.md_math.specs.Lists.{list_to};
ghost use Rattle.md_math.specs.Sets.{member};
ghost use Rattle.md_setting.specs.Auction.{value_count};
ghost use Rattle.md_setting.specs.AuctionShaped.{IsAuction};
ghost use Rattle.md_border.specs.Odds.{IsInterim, demand_of};
ghost use Rattle.md_expost.specs.Masses.{rank_count, counts_in, cap_at};
ghost use Rattle.md_expost.specs.CountNets.{IsNetOf};

use md_border::{Interim, demand};
use md_counts::Counts;
use md_flow::Net;
use md_lp::Sets;
use md_num::{NoMemory, Nums, product};
use md_setting::Auction;
use std::alloc::Global;

/// The net whose flows are the mass tables with the odds.
pub(crate) fn net_of(
    alloc: Global,
    auction: &Auction,
    counts: &Counts,
    interim: &Interim,
) -> Result<Net, NoMemory>
    requires bidders { counts.now.bidders ≡ auction.now.bidders }
    requires kinds { counts.now.kinds ≡ value_count auction.now }
    requires fits { IsInterim auction.now interim.now }
    ensures { IfOk result (IsNetOf auction.now interim.now) }
{
    let caps = caps(alloc, auction, counts, interim.den)?;
    let demands = demands(alloc, auction, interim)?;
    let touches = touches(alloc, auction, counts)?;
    Ok(Net::new(caps, demands, touches))
}

/// What there is to give at the counts of a rank: the weight of all profiles with these counts, in units of one over the
/// denominator.
pub fn cap(auction: &Auction, counts: &Counts, den: i128, rank: u32) -> i128
    requires bidders { counts.now.bidders ≡ auction.now.bidders }
    requires kinds { counts.now.kinds ≡ value_count auction.now }
    requires den_small { (pos 1 ≤ℤ den) × (den ≤ℤ pos 4611686018427387903) }
    requires rank_in { rank < rank_count auction.now }
    ensures value { result ≡ cap_at auction.now den rank }
    ensures nonneg { pos 0 ≤ℤ result }
    ensures shaped { IsAuction auction.now }
{
    product(den, i128::from(counts.weight(rank, auction.weights())))
}

// The caps of all lists of counts.
fn caps(alloc: Global, auction: &Auction, counts: &Counts, den: i128) -> Result<Nums, NoMemory>
    requires bidders { counts.now.bidders ≡ auction.now.bidders }
    requires kinds { counts.now.kinds ≡ value_count auction.now }
    requires den_small { (pos 1 ≤ℤ den) × (den ≤ℤ pos 4611686018427387903) }
    ensures { IfOk result (λ caps. caps ≡ list_to (rank_count auction.now) (cap_at auction.now den)) }
{
    let mut caps = Nums::new(alloc);
    for rank in 0..counts.len() {
        caps.push(cap(auction, counts, den, rank))?;
    }
    Ok(caps)
}

/// The demands of all kinds. Nothing but want of memory is an error.
pub fn demands(alloc: Global, auction: &Auction, interim: &Interim) -> Result<Nums, NoMemory>
    requires fits { IsInterim auction.now interim.now }
    ensures value { IfOk result (λ demands. demands ≡ list_to (value_count auction.now) (demand_of auction.now interim.now)) }
    ensures shaped { IsAuction auction.now }
{
    let mut demands = Nums::new(alloc);
    for kind in 0..auction.kinds() {
        demands.push(demand(auction, interim, kind))?;
    }
    Ok(demands)
}

// The kinds that some bidder has, for all lists of counts.
fn touches(alloc: Global, auction: &Auction, counts: &Counts) -> Result<Sets, NoMemory>
    requires bidders { counts.now.bidders ≡ auction.now.bidders }
    requires kinds { counts.now.kinds ≡ value_count auction.now }
    ensures count { IfOk result (λ sets. length sets ≡ rank_count auction.now) }
    ensures members { IfOk result (λ sets. (rank v : ℕ) → rank < length sets → v < value_count auction.now → member (slice_index sets rank) v ≡ nat_lt 0 (slice_index (counts_in auction.now rank) v)) }
{
    let mut sets = Sets::new(alloc);
    for rank in 0..counts.len() {
        sets.push(kinds_at(auction, counts, rank))?;
    }
    Ok(sets)
}

// The set of the kinds that some bidder has, at the counts of a rank.
fn kinds_at(auction: &Auction, counts: &Counts, rank: u32) -> u32
    requires bidders { counts.now.bidders ≡ auction.now.bidders }
    requires kinds { counts.now.kinds ≡ value_count auction.now }
    requires rank_in { rank < rank_count auction.now }
    ensures { (v : ℕ) → v < value_count auction.now → member result v ≡ nat_lt 0 (slice_index (counts_in auction.now rank) v) }
{
    let mut set = 0;
    for kind in 0..auction.kinds() {
        set = with(set, kind, counts.count(rank, kind) > 0);
    }
    set
}

// A set with one more kind, if a test holds.
fn with(set: u32, kind: u32, test: bool) -> u32
    requires kind { kind < 12 }
    requires set { set < 2 ^ kind }
    ensures size { result < 2 ^ (kind + 1) }
    ensures here { member result kind ≡ test }
    ensures others { (k : ℕ) → k < kind → member result k ≡ member set k }
{
    if test { set | (1u32 << kind) } else { set }
}
