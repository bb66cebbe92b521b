//! The sets of values that pools use up.
ghost use Rattle.std.specs.Prelude.{◌≡◌, ◌<◌, ◌^◌, length, IfOk};
ghost use Rattle.md_setting.specs.Auction.{value_count};
ghost use Rattle.md_lp.specs.Cuts.{AreCuts};
ghost use Rattle.md_iron_values.specs.Cuts.{begins, cuts_of, set_from};
ghost use Rattle.md_iron_pools.specs.Pooling.{IsPooling, pools_of};

use crate::pools::AuctionPools;
use md_lp::Sets;
use md_num::NoMemory;
use md_setting::Auction;
use std::alloc::Global;

/// For each pool that wins, from the lowest on, the set of its values and of all above: the item goes to a bidder with one
/// of them wherever there is one.
pub fn cuts(alloc: Global, auction: &Auction, pools: &AuctionPools) -> Result<Sets, NoMemory>
    requires { IsPooling auction.now pools.now }
    ensures value { IfOk result (λ cuts. cuts ≡ cuts_of (value_count auction.now) (pools_of pools.now)) }
    ensures cuts { IfOk result (AreCuts (value_count auction.now)) }
{
    let mut cuts = Sets::new(alloc);
    for kind in 0..auction.kinds() {
        if begins(pools, kind) {
            cuts.push(values_from(auction, kind))?;
        }
    }
    Ok(cuts)
}

/// Whether a pool that wins begins at a value.
pub fn begins(pools: &AuctionPools, kind: u32) -> bool
    requires { kind < length pools.now.by_kind.items }
    ensures { result ≡ begins (pools_of pools.now) kind }
{
    if kind < pools.reserve {
        return false;
    }
    pools.by_kind[kind as usize].first == kind
}

/// The set of the values from one on, as a number whose bit j stands for value j.
pub fn values_from(auction: &Auction, kind: u32) -> u32
    requires { kind < value_count auction.now }
    ensures { result ≡ set_from (value_count auction.now) kind }
{
    power(auction.kinds()) - power(kind)
}

// A power of two.
fn power(exponent: u32) -> u32
    requires { exponent < 13 }
    ensures { result ≡ 2 ^ exponent }
{
    1u32 << exponent
}
