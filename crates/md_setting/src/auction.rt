//! Symmetric auctions of one item that are known to be well formed.
ghost use Rattle.std.specs.Prelude.{◌≡◌, ◌≢◌, ◌<◌, Some, None, IfOk, IfErr, pos, slice_index};
ghost use Rattle.md_math.specs.Lists.{number_at};
ghost use Rattle.md_setting.specs.Auction.{as_written, auction_of, written_auction, value_count, total_weight};
ghost use Rattle.md_setting.specs.AuctionRefusals.{auction_refusal_of};
ghost use Rattle.md_setting.specs.AuctionShaped.{IsAuction};

use crate::BuildRefusal;
use crate::auction_check::{check_numbers, check_weights};
use crate::auction_limits::sizes_of;
use std::alloc::Global;
use std::marker::Model;

/// A symmetric auction of one item within the limits (Border 1991): each bidder has one of the values, by the same
/// weights, apart from the others.
#[derive(Drop)]
pub struct Auction {
    bidders: u32,
    values: Vec<i64>,
    weights: Vec<u64>,
    total: u64,
    revenue: i64,
    welfare: i64,
    keep: i64,
}

impl Model for Auction {
    ghost use Rattle.md_setting.specs.Auction.{SymmetricAuction, total_weight};
    ghost use Rattle.md_setting.specs.AuctionShaped.{IsKeptAuction};

    ghost Value = { SymmetricAuction };

    ghost view = { λ a. record { bidders = a.bidders; values = a.values.items; weights = a.weights.items; revenue = a.revenue; welfare = a.welfare; keep = a.keep } };

    ghost invariant = { λ a. IsKeptAuction (record { bidders = a.bidders; values = a.values.items; weights = a.weights.items; revenue = a.revenue; welfare = a.welfare; keep = a.keep }) a.total };
}

impl Auction {
    /// The auction of so many bidders, with these values and their weights, unless there is a reason to refuse it.
    /// `revenue` and `welfare` are the factors of the payments and of the bidders' utilities in the objective, and
    /// `keep` is what the item is worth to the designer.
    pub fn new(
        alloc: Global,
        bidders: i64,
        values: &[i64],
        weights: &[i64],
        revenue: i64,
        welfare: i64,
        keep: i64,
    ) -> Result<Auction, BuildRefusal>
        ensures ok { IfOk result (λ auction. auction ≡ auction_of (written_auction bidders values.now weights.now revenue welfare keep)) }
        ensures accepted { IfOk result (λ _. auction_refusal_of (written_auction bidders values.now weights.now revenue welfare keep) ≡ None) }
        ensures refused { IfErr result (λ e. e ≢ BuildRefusal.Memory → auction_refusal_of (written_auction bidders values.now weights.now revenue welfare keep) ≡ Some e) }
    {
        check_numbers(bidders, values, weights, revenue, welfare, keep)?;
        let Ok(weights) = sizes_of(alloc, weights) else {
            return Err(BuildRefusal::Memory);
        };
        let total = check_weights(bidders as usize, values, &weights)?;
        let Ok(values) = Vec::from_slice(alloc, values) else {
            return Err(BuildRefusal::Memory);
        };
        Ok(Auction {
            bidders: bidders as u32,
            values,
            weights,
            total,
            revenue,
            welfare,
            keep,
        })
    }

    /// The number of bidders.
    pub fn bidders(&self) -> u32
        ensures count { result ≡ self.now.bidders }
        ensures shaped { IsAuction self.now }
    {
        self.bidders
    }

    /// The number of values.
    pub fn kinds(&self) -> u32
        ensures count { result ≡ value_count self.now }
        ensures shaped { IsAuction self.now }
    {
        self.values.len() as u32
    }

    /// The value of a kind.
    pub fn value(&self, kind: u32) -> i64
        requires { kind < value_count self.now }
        ensures value { result ≡ number_at self.now.values kind }
        ensures shaped { IsAuction self.now }
    {
        self.values.as_slice()[kind as usize]
    }

    /// The values of all kinds, in ascending order.
    pub fn values(&self) -> &[i64]
        ensures value { result.now ≡ self.now.values }
        ensures accepted { auction_refusal_of (as_written self.now) ≡ None }
        ensures shaped { IsAuction self.now }
    {
        self.values.as_slice()
    }

    /// The weight of a kind.
    pub fn weight(&self, kind: u32) -> u64
        requires { kind < value_count self.now }
        ensures value { result ≡ slice_index self.now.weights kind }
        ensures shaped { IsAuction self.now }
    {
        self.weights.as_slice()[kind as usize]
    }

    /// The weights of all kinds.
    pub fn weights(&self) -> &[u64]
        ensures value { result.now ≡ self.now.weights }
        ensures shaped { IsAuction self.now }
    {
        self.weights.as_slice()
    }

    /// The weight of all kinds together.
    pub fn total(&self) -> i64
        ensures value { result ≡ pos (total_weight self.now.weights) }
        ensures shaped { IsAuction self.now }
    {
        self.total as i64
    }

    /// The factor of the payments in the objective.
    pub fn revenue(&self) -> i64
        ensures value { result ≡ self.now.revenue }
        ensures shaped { IsAuction self.now }
    {
        self.revenue
    }

    /// The factor of the bidders' utilities in the objective.
    pub fn welfare(&self) -> i64
        ensures value { result ≡ self.now.welfare }
        ensures shaped { IsAuction self.now }
    {
        self.welfare
    }

    /// What the item is worth to the designer.
    pub fn keep(&self) -> i64
        ensures value { result ≡ self.now.keep }
        ensures shaped { IsAuction self.now }
    {
        self.keep
    }
}
