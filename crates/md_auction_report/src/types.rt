//! What a bidder with each value gets and pays.
ghost use Rattle.std.specs.Prelude.{◌≡◌, ◌<◌, IfOk};
ghost use Rattle.md_setting.specs.Auction.{value_count};
ghost use Rattle.md_setting.specs.AuctionShaped.{IsAuction};
ghost use Rattle.md_border.specs.Odds.{IsInterim};
ghost use Rattle.md_auction_report.specs.Types.{AreTold, IsToldOf};

use crate::measures::{over, payment, utility};
use crate::value_numbers::ValueNumbers;
use md_border::Interim;
use md_num::NoMemory;
use md_setting::Auction;
use std::alloc::Global;

/// What a bidder with each value gets and pays, by kind.
pub(crate) fn types(
    alloc: Global,
    auction: &Auction,
    interim: &Interim,
) -> Result<Vec<ValueNumbers>, NoMemory>
    requires { IsInterim auction.now interim.now }
    ensures told { IfOk result (λ told. AreTold auction.now interim.now (value_count auction.now) told.items) }
    ensures shaped { IfOk result (λ _. IsAuction auction.now) }
{
    let mut told = Vec::new(alloc);
    for kind in 0..auction.kinds() {
        told.push(value_numbers(auction, interim, kind))?;
    }
    Ok(told)
}

fn value_numbers(auction: &Auction, interim: &Interim, kind: u32) -> ValueNumbers
    requires fits { IsInterim auction.now interim.now }
    requires kind_in { kind < value_count auction.now }
    ensures told { IsToldOf auction.now interim.now result }
    ensures kind { result.kind ≡ kind }
{
    let gets = utility(auction, interim, kind, kind);
    let pays = payment(auction, interim, kind);
    ValueNumbers {
        kind,
        utility: over(gets, interim.den),
        payment: over(pays, interim.den),
    }
}
