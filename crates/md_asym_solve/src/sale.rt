//! The cut programs of sales, whose cuts are Border's conditions for sets of pairs.
ghost use Rattle.std.specs.Prelude.{◌≡◌, IfOk};
ghost use Rattle.md_math.specs.Lists.{number_at};
ghost use Rattle.md_cut_runs.specs.Cutting.{IsCutPoint, IsCutting};
ghost use Rattle.md_cut_runs.specs.Worst.{IsWorst, NoneOver, WhereTable, WhereViolated};
ghost use Rattle.md_asym_sale.specs.Sale.{IsSale};
ghost use Rattle.md_asym_solve.specs.SaleCuts.{IsRealised, sale_cutting};

use crate::payments::{odds_of, pays_of};
use md_asym_sale::{pair_count, program};
use md_asym_tables::{PairEnd, realise_pairs};
use md_cut_runs::{CutProgram, Worst};
use md_lp::{Lp, Sets};
use md_num::{NoMemory, Nums};
use md_setting::Setting;
use std::alloc::Global;
use std::marker::Model;

/// A setting that is a sale.
#[derive(Drop)]
pub(crate) struct Sale<'a> {
    pub(crate) setting: &'a Setting,
}

impl<'a> Model for Sale<'a> {
    ghost use Rattle.md_setting.specs.Setting.{GeneralSetting};
    ghost use Rattle.md_asym_sale.specs.Sale.{IsSale};

    ghost Value = { GeneralSetting };

    ghost view = { λ sale. sale.setting.now };

    ghost invariant = { λ sale. IsSale sale.setting.now };
}

/// The odds and the payments of a point, and a profile table that has exactly the odds.
#[derive(Drop)]
pub(crate) struct Realised {
    /// How often each pair has the item.
    pub(crate) odds: Nums,
    /// What each pair pays.
    pub(crate) pays: Nums,
    /// The profile table, over the same denominator.
    pub(crate) masses: Nums,
}

impl<'a> CutProgram for Sale<'a> {
    type Table = Realised;

    ghost cutting = { sale_cutting };

    ghost shows = { IsRealised };

    fn places(&self) -> u32 {
        places_of(self.setting)
    }

    fn program(&self, alloc: Global, cuts: &Sets) -> Result<Lp, NoMemory> {
        program(alloc, self.setting, cuts)
    }

    fn worst(&self, alloc: Global, den: i128, point: &Nums) -> Result<Worst<Realised>, NoMemory> {
        worst_of(alloc, self.setting, den, point)
    }
}

// How many pairs there are.
fn places_of(setting: &Setting) -> u32
    requires { IsSale setting.now }
    ensures count { result ≡ (sale_cutting setting.now).places }
    ensures cutting { IsCutting (sale_cutting setting.now) }
{
    pair_count(setting)
}

// A profile table with the odds of a point, or the set of pairs that breaks Border's condition most.
fn worst_of(
    alloc: Global,
    setting: &Setting,
    den: i128,
    point: &Nums,
) -> Result<Worst<Realised>, NoMemory>
    requires sale { IsSale setting.now }
    requires point { IsCutPoint (sale_cutting setting.now) den point.now }
    ensures violated { IfOk result (WhereViolated (IsWorst (sale_cutting setting.now) den (number_at point.now))) }
    ensures none_over { IfOk result (WhereTable (λ _. NoneOver (sale_cutting setting.now) den (number_at point.now))) }
    ensures shows { IfOk result (WhereTable (IsRealised setting.now den (number_at point.now))) }
{
    let odds = odds_of(alloc, setting, point)?;
    match realise_pairs(alloc, setting, den, &odds)? {
        PairEnd::Table(masses) => {
            let pays = pays_of(alloc, setting, point)?;
            Ok(Worst::Table(Realised { odds, pays, masses }))
        }
        PairEnd::Violated(set) => Ok(Worst::Violated(set)),
    }
}
