//! The interim odds and payments of a point.
ghost use Rattle.std.specs.Prelude.{◌≡◌, ◌<◌, length, IfOk};
ghost use Rattle.md_math.specs.Lists.{number_at, list_to};
ghost use Rattle.md_math.specs.Sizes.{IsWithin, AllWithin};
ghost use Rattle.md_mech.specs.Accepted.{number_limit};
ghost use Rattle.md_setting.specs.Auction.{value_count};
ghost use Rattle.md_setting.specs.AuctionShaped.{IsAuction};
ghost use Rattle.md_border.specs.Odds.{IsInterim};
ghost use Rattle.md_reduced.specs.Points.{interim_in, MeetsReduced};
ghost use Rattle.md_reduced.specs.ProgramOf.{column_count};
ghost use Rattle.md_reduced.specs.Sides.{pay_in};

use md_border::Interim;
use md_num::{NoMemory, Nums};
use md_setting::Auction;
use std::alloc::Global;

/// The interim odds and payments of a point over its denominator: the numbers of the first columns, and for each payment its
/// plus part less its minus part. The point meets a reduced program of the auction that has the cut of each value alone, so
/// that no odds are over 1. Nothing but want of memory is an error.
pub fn interim_of(
    alloc: Global,
    auction: &Auction,
    den: i128,
    point: &Nums,
) -> Result<Interim, NoMemory>
    requires one_each { length point.now ≡ column_count auction.now }
    requires meets { MeetsReduced auction.now den (number_at point.now) }
    requires sizes { AllWithin number_limit point.now }
    requires den_size { IsWithin number_limit den }
    ensures value { IfOk result (λ interim. interim ≡ interim_in auction.now den (number_at point.now)) }
    ensures fits { IfOk result (IsInterim auction.now) }
{
    Ok(Interim {
        den,
        odds: odds(alloc, auction, point)?,
        pays: pays(alloc, auction, point)?,
    })
}

fn odds(alloc: Global, auction: &Auction, point: &Nums) -> Result<Nums, NoMemory>
    requires one_each { length point.now ≡ column_count auction.now }
    ensures value { IfOk result (λ odds. odds ≡ list_to (value_count auction.now) (number_at point.now)) }
    ensures shaped { IfOk result (λ _. IsAuction auction.now) }
{
    let mut odds = Nums::new(alloc);
    for kind in 0..auction.kinds() {
        odds.push(point.get(kind as usize))?;
    }
    Ok(odds)
}

fn pays(alloc: Global, auction: &Auction, point: &Nums) -> Result<Nums, NoMemory>
    requires one_each { length point.now ≡ column_count auction.now }
    requires sizes { AllWithin number_limit point.now }
    ensures { IfOk result (λ pays. pays ≡ list_to (value_count auction.now) (pay_in auction.now (number_at point.now))) }
{
    let mut pays = Nums::new(alloc);
    for kind in 0..auction.kinds() {
        pays.push(pay(auction, point, kind))?;
    }
    Ok(pays)
}

// What a bidder with a value pays.
fn pay(auction: &Auction, point: &Nums, kind: u32) -> i128
    requires one_each { length point.now ≡ column_count auction.now }
    requires sizes { AllWithin number_limit point.now }
    requires kind_in { kind < value_count auction.now }
    ensures { result ≡ pay_in auction.now (number_at point.now) kind }
{
    let kinds = auction.kinds();
    let plus = point.get((kinds + kind) as usize);
    let minus = point.get((2 * kinds + kind) as usize);
    plus - minus
}
