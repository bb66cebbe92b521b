//! Threshold auctions.
use md_iron_pools::AuctionPools;
use md_num::Frac;

/// The best auction of some units in which only winners pay, and what is expected of it.
#[derive(Drop)]
pub struct Threshold {
    /// The pools of values; those below the reserve never win.
    pub pools: AuctionPools,
    /// What it is worth to the designer.
    pub value: Frac,
    /// The expected payments of all bidders.
    pub revenue: Frac,
    /// The expected worth of the units to all bidders, payments left out.
    pub welfare: Frac,
}
