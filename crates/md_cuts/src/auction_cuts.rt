//! The cut programs of auctions: reduced programs, whose cuts are Border's conditions.
ghost use Rattle.std.specs.Prelude.{◌≡◌, IfOk};
ghost use Rattle.md_math.specs.Lists.{number_at};
ghost use Rattle.md_cuts.specs.AuctionCuts.{IsRealised, auction_cutting};
ghost use Rattle.md_cut_runs.specs.Cutting.{IsCutPoint, IsCutting};
ghost use Rattle.md_cut_runs.specs.Worst.{IsWorst, NoneOver, WhereTable, WhereViolated};

use md_border::Interim;
use md_cut_runs::{CutProgram, Worst};
use md_expost::{Masses, RealiseEnd, realise};
use md_lp::{Lp, Sets};
use md_num::{NoMemory, Nums};
use md_reduced::{interim_of, program};
use md_setting::Auction;
use std::alloc::Global;
use std::marker::Model;

/// The sale of one item to the bidders of an auction.
#[derive(Drop)]
pub(crate) struct ItemSale<'a> {
    pub(crate) auction: &'a Auction,
}

impl<'a> Model for ItemSale<'a> {
    ghost use Rattle.md_setting.specs.Auction.{SymmetricAuction};

    ghost Value = { SymmetricAuction };

    ghost view = { λ sale. sale.auction.now };
}

/// The interim odds and payments of a point, and a mass table that has exactly the odds.
#[derive(Drop)]
pub(crate) struct Realised {
    /// The odds and the payments.
    pub(crate) interim: Interim,
    /// The mass table, over the same denominator.
    pub(crate) masses: Masses,
}

impl<'a> CutProgram for ItemSale<'a> {
    type Table = Realised;

    ghost cutting = { auction_cutting };

    ghost shows = { IsRealised };

    fn places(&self) -> u32 {
        places_of(self.auction)
    }

    fn program(&self, alloc: Global, cuts: &Sets) -> Result<Lp, NoMemory> {
        program(alloc, self.auction, cuts)
    }

    fn worst(&self, alloc: Global, den: i128, point: &Nums) -> Result<Worst<Realised>, NoMemory> {
        worst_of(alloc, self.auction, den, point)
    }
}

// How many values there are, for sets of them.
fn places_of(auction: &Auction) -> u32
    ensures count { result ≡ (auction_cutting auction.now).places }
    ensures cutting { IsCutting (auction_cutting auction.now) }
{
    auction.kinds()
}

// A mass table with the odds of a point, or the set of values that breaks Border's condition most.
fn worst_of(
    alloc: Global,
    auction: &Auction,
    den: i128,
    point: &Nums,
) -> Result<Worst<Realised>, NoMemory>
    requires { IsCutPoint (auction_cutting auction.now) den point.now }
    ensures violated { IfOk result (WhereViolated (IsWorst (auction_cutting auction.now) den (number_at point.now))) }
    ensures none_over { IfOk result (WhereTable (λ _. NoneOver (auction_cutting auction.now) den (number_at point.now))) }
    ensures shows { IfOk result (WhereTable (IsRealised auction.now den (number_at point.now))) }
{
    let interim = interim_of(alloc, auction, den, point)?;
    match realise(alloc, auction, &interim)? {
        RealiseEnd::Table(masses) => Ok(Worst::Table(Realised { interim, masses })),
        RealiseEnd::Violated(set) => Ok(Worst::Violated(set)),
    }
}
