//! Auctions for the payments alone.
ghost use Rattle.std.specs.Prelude.{◌≡◌, length, IfOk};
ghost use Rattle.md_setting.specs.Auction.{value_count};

use md_setting::{Auction, BuildRefusal};
use std::alloc::Global;

/// An auction for the payments alone.
pub(crate) fn auction(
    alloc: Global,
    bidders: i64,
    values: &[i64],
    weights: &[i64],
) -> Result<Auction, BuildRefusal>
    ensures { IfOk result (λ auction. value_count auction ≡ length values.now) }
{
    Auction::new(alloc, bidders, values, weights, 1, 0, 0)
}
