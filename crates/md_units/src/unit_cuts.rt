//! The cut programs of sales of several units: reduced programs, whose cuts are Border's conditions.
ghost use Rattle.std.specs.Prelude.{◌≡◌, IfOk};
ghost use Rattle.md_math.specs.Lists.{number_at};
ghost use Rattle.md_cut_runs.specs.Cutting.{IsCutPoint, IsCutting};
ghost use Rattle.md_cut_runs.specs.Worst.{IsWorst, NoneOver, WhereTable, WhereViolated};
ghost use Rattle.md_unit_tables.specs.Numbers.{IsUnitNumber};
ghost use Rattle.md_cuts.specs.AuctionCuts.{unit_cutting};
ghost use Rattle.md_units.specs.UnitCuts.{IsUnitRealised};

use crate::program;
use md_border::Interim;
use md_cut_runs::{CutProgram, Worst};
use md_lp::{Lp, Sets};
use md_num::{NoMemory, Nums};
use md_reduced::interim_of;
use md_setting::Auction;
use md_unit_tables::{UnitEnd, realise_units};
use std::alloc::Global;
use std::marker::Model;

/// An auction, and how many units are sold.
#[derive(Drop)]
pub(crate) struct UnitSale<'a> {
    pub(crate) auction: &'a Auction,
    pub(crate) units: u32,
}

impl<'a> Model for UnitSale<'a> {
    ghost use Rattle.std.specs.Prelude.{ℕ};
    ghost use Rattle.md_setting.specs.Auction.{SymmetricAuction};
    ghost use Rattle.md_unit_tables.specs.Numbers.{IsUnitNumber};

    ghost Value = { SymmetricAuction × ℕ };

    ghost view = { λ sale. (sale.auction.now, sale.units) };

    ghost invariant = { λ sale. IsUnitNumber sale.units };
}

/// The odds and the payments of a point, and a unit table that has exactly the odds.
#[derive(Drop)]
pub(crate) struct Realised {
    /// The odds and the payments.
    pub(crate) interim: Interim,
    /// The unit table, over the same denominator.
    pub(crate) masses: Nums,
}

impl<'a> CutProgram for UnitSale<'a> {
    type Table = Realised;

    ghost cutting = { λ sale. unit_cutting sale.0 sale.1 };

    ghost shows = { λ sale. IsUnitRealised sale.0 sale.1 };

    fn places(&self) -> u32 {
        places_of(self.auction, self.units)
    }

    fn program(&self, alloc: Global, cuts: &Sets) -> Result<Lp, NoMemory> {
        program(alloc, self.auction, self.units, cuts)
    }

    fn worst(&self, alloc: Global, den: i128, point: &Nums) -> Result<Worst<Realised>, NoMemory> {
        worst_of(alloc, self.auction, self.units, den, point)
    }
}

// How many values there are, for sets of them.
fn places_of(auction: &Auction, units: u32) -> u32
    ensures count { result ≡ (unit_cutting auction.now units).places }
    ensures cutting { IsCutting (unit_cutting auction.now units) }
{
    auction.kinds()
}

// A unit table with the odds of a point, or the set of values that breaks Border's condition most.
fn worst_of(
    alloc: Global,
    auction: &Auction,
    units: u32,
    den: i128,
    point: &Nums,
) -> Result<Worst<Realised>, NoMemory>
    requires units { IsUnitNumber units }
    requires point { IsCutPoint (unit_cutting auction.now units) den point.now }
    ensures violated { IfOk result (WhereViolated (IsWorst (unit_cutting auction.now units) den (number_at point.now))) }
    ensures none_over { IfOk result (WhereTable (λ _. NoneOver (unit_cutting auction.now units) den (number_at point.now))) }
    ensures shows { IfOk result (WhereTable (IsUnitRealised auction.now units den (number_at point.now))) }
{
    let interim = interim_of(alloc, auction, den, point)?;
    match realise_units(alloc, auction, units, &interim)? {
        UnitEnd::Table(masses) => Ok(Worst::Table(Realised { interim, masses })),
        UnitEnd::Violated(set) => Ok(Worst::Violated(set)),
    }
}
