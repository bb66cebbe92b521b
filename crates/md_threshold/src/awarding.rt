//! What bidders have at a profile and a draw.
ghost use Rattle.std.specs.Prelude.{◌≡◌, ◌<◌, ◌≤◌, ◌^◌, pos, ◌*ℤ◌, length, slice_index, IfOk, IfErr, MatchOption};
ghost use Rattle.md_space.specs.Profiles.{IsProfile};
ghost use Rattle.md_setting.specs.Meaning.{sizes_of};
ghost use Rattle.md_setting.specs.General.{general_of};
ghost use Rattle.md_iron_pools.specs.Pooling.{IsPooling, pools_of};
ghost use Rattle.md_threshold_laws.specs.Rule.{chance};
ghost use Rattle.md_threshold.specs.Kinds.{AreKinds};
ghost use Rattle.md_threshold.specs.Awards.{AreShares, IsAward, IsAwardRefused, IsDraw, IsPriceOf, IsShare};

use crate::chances::{chance_with, draw_count, payment};
use crate::draws::{draws_at, wins_at};
use crate::{Award, AwardRefusal, Share};
use md_iron_pools::{AuctionPools, pool};
use md_num::{Frac, NoMemory};
use md_setting::Auction;
use std::alloc::Global;

/// What each bidder has at a profile of reports, which are places of values, and at a draw: how often it wins, what it pays where it
/// wins, and whether it does at this draw. The draw is one of as many as the pool that is split has bidders, counted from 0, and 0
/// where no pool is.
pub fn award_units(
    alloc: Global,
    auction: &Auction,
    units: u32,
    profile: &[u8],
    draw: i128,
) -> Result<Award, AwardRefusal>
    requires units { (1 ≤ units) × (units ≤ 12) }
    requires profile { IsProfile (sizes_of (general_of auction.now)) profile.now }
    ensures awarded { IfOk result (IsAward auction.now units profile.now draw) }

    // Nothing but a draw out of range is refused.
    ensures refused { IfErr result (IsAwardRefused auction.now units profile.now draw) }
{
    let _shaped = auction.kinds();
    let Ok(pools) = pool(alloc, auction) else {
        return Err(AwardRefusal::Memory);
    };
    let draws = draws_at(&pools, units, profile);
    let Some(draw) = draw_below(draw, draws) else {
        return Err(AwardRefusal::Draw(draws));
    };
    let Ok(shares) = shares(alloc, auction, &pools, units, profile, draw) else {
        return Err(AwardRefusal::Memory);
    };
    Ok(Award { shares })
}

// A draw that is one of so many.
fn draw_below(draw: i128, draws: u32) -> Option<u32>
    requires { draws ≤ 12 }
    ensures { MatchOption result (¬ IsDraw draws draw) (λ number. (pos number ≡ draw) × (number < draws)) }
{
    match u32::try_from(draw) {
        Ok(number) if number < draws => Some(number),
        _ => None,
    }
}

// What all bidders have.
fn shares(
    alloc: Global,
    auction: &Auction,
    pools: &AuctionPools,
    units: u32,
    profile: &[u8],
    draw: u32,
) -> Result<Vec<Share>, NoMemory>
    requires pooling { IsPooling auction.now pools.now }
    requires profile { IsProfile (sizes_of (general_of auction.now)) profile.now }
    requires draw { draw < 12 }
    ensures { IfOk result (λ shares. AreShares auction.now units (pools_of pools.now) profile.now draw auction.now.bidders shares.items) }
{
    let mut shares = Vec::new(alloc);
    for bidder in 0..auction.bidders() {
        shares.push(share_of(auction, pools, units, profile, draw, bidder))?;
    }
    Ok(shares)
}

// What a bidder has.
fn share_of(
    auction: &Auction,
    pools: &AuctionPools,
    units: u32,
    profile: &[u8],
    draw: u32,
    bidder: u32,
) -> Share
    requires pooling { IsPooling auction.now pools.now }
    requires profile { IsProfile (sizes_of (general_of auction.now)) profile.now }
    requires bidder { bidder < auction.now.bidders }
    requires draw { draw < 12 }
    ensures { IsShare auction.now units (pools_of pools.now) profile.now draw bidder result }
{
    let _shaped = auction.kinds();
    let place = bidder as usize;
    let chance = chance_with(pools, units, profile, place, u32::from(profile[place]));
    Share {
        chance: Frac::reduced(i128::from(chance), i128::from(draw_count())),
        price: price_of(auction, pools, units, profile, place, chance),
        wins: wins_at(pools, units, profile, draw, place),
    }
}

// What a bidder pays where it wins, if it ever does; it wins so often.
fn price_of(
    auction: &Auction,
    pools: &AuctionPools,
    units: u32,
    profile: &[u8],
    bidder: usize,
    often: u32,
) -> Option<Frac>
    requires pooling { IsPooling auction.now pools.now }
    requires profile { IsProfile (sizes_of (general_of auction.now)) profile.now }
    requires bidder { bidder < length profile.now }
    requires often { often ≡ chance units (pools_of pools.now) profile.now (slice_index profile.now bidder) }
    requires size { often ≤ 27720 }
    ensures { IsPriceOf auction.now units (pools_of pools.now) profile.now bidder result }
{
    let _shaped = auction.kinds();
    if often == 0 {
        return None;
    }
    let paid = payment(auction, pools, units, profile, bidder);
    Some(Frac::reduced(paid, i128::from(often)))
}
