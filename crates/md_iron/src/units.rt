//! Auctions of several units in closed form.
ghost use Rattle.std.specs.Prelude.{ℤ, IfOk, IfSome, MatchOption};
ghost use Rattle.md_mech.specs.Optimal.{IsOptimal};
ghost use Rattle.md_mech.specs.Value.{IsValueOf};
ghost use Rattle.md_border.specs.Odds.{IsInterim};
ghost use Rattle.md_winners.specs.Odds.{HasUnitOdds, HasUnitPays, MeetsUnitBorder};
ghost use Rattle.md_winners.specs.Setting.{units_of};
ghost use Rattle.md_unit_tables.specs.Tables.{ImplementsUnits, IsUnitTable, table_of};
ghost use Rattle.md_unit_tables.specs.Numbers.{IsUnitNumber};
ghost use Rattle.md_units.specs.Solved.{mechanism_in};
ghost use Rattle.md_iron.specs.ClosedForms.{HasLongMultipliers, IsClosedUnits, IsOneUnits, PaysWithinValue};
ghost use Rattle.md_iron.specs.UnitForms.{IsCertifiedForm, IsWritableForm};

use crate::forms::closed_form;
use md_border::Interim;
use md_num::{NoMemory, Nums};
use md_setting::Auction;
use md_units::{UnitEnd, UnitsAnswer, realise_units, unit_worth};
use std::alloc::Global;

/// The best sale of so many units to the bidders of an auction, each of whom wants one, in closed form: bidders of higher pools win
/// first, and each of a pool as often where there are too few units for all. One unit is the item of `iron`. There is none where
/// the multipliers are too long. Nothing but want of memory is an error.
pub fn iron_units(
    alloc: Global,
    auction: &Auction,
    units: u32,
) -> Result<Option<UnitsAnswer>, NoMemory>
    requires { IsUnitNumber units }

    // The odds, payments, cuts and multipliers are those of the pools that the rule names, and no others are; or the multipliers
    // are too long.
    ensures closed { IfOk result (λ answer. MatchOption answer (HasLongMultipliers auction.now units) (IsClosedUnits auction.now units)) }
    ensures one { IfOk result (λ answer. IfSome answer (IsOneUnits auction.now units)) }

    // Each value pays from nothing to what a unit is worth to it, as often as it has one.
    ensures own { IfOk result (λ answer. IfSome answer (λ answer. PaysWithinValue auction.now answer.interim)) }

    // Its mechanism is optimal over all mechanisms of the sale, of any denominator, with numbers of any size.
    ensures optimal { IfOk result (λ answer. IfSome answer (λ answer. IsOptimal (units_of auction.now units) (mechanism_in auction.now units answer))) }
    ensures odds { IfOk result (λ answer. IfSome answer (λ answer. HasUnitOdds auction.now units (mechanism_in auction.now units answer) answer.interim.den answer.interim.odds)) }
    ensures pays { IfOk result (λ answer. IfSome answer (λ answer. HasUnitPays auction.now units (mechanism_in auction.now units answer) answer.interim.den answer.interim.pays)) }
    ensures value { IfOk result (λ answer. IfSome answer (λ answer. IsValueOf (units_of auction.now units) (mechanism_in auction.now units answer) answer.value)) }

    // The multipliers show it, in whatever terms the program of the cuts is written.
    ensures certified { IfOk result (λ answer. IfSome answer (IsCertifiedForm auction.now units)) }

    // The answer can be written.
    ensures fits { IfOk result (λ answer. IfSome answer (λ answer. IsInterim auction.now answer.interim)) }
    ensures writable { IfOk result (λ answer. IfSome answer (IsWritableForm auction.now)) }
{
    let Some(form) = closed_form(alloc, auction, units)? else {
        return Ok(None);
    };
    let masses = masses_of(alloc, auction, units, &form.interim)?;
    Ok(Some(UnitsAnswer {
        value: unit_worth(auction, units, &form.interim),
        cuts: form.cuts,
        interim: form.interim,
        masses,
        bound: form.bound,
    }))
}

// A unit table that has odds of which no set of values asks for more units than there are.
fn masses_of(
    alloc: Global,
    auction: &Auction,
    units: u32,
    interim: &Interim,
) -> Result<Nums, NoMemory>
    requires units { IsUnitNumber units }
    requires fits { IsInterim auction.now interim.now }
    requires none_over { MeetsUnitBorder auction.now units interim.now }
    ensures table { IfOk result (λ rows. IsUnitTable auction.now units (table_of interim.now rows)) }
    ensures implements { IfOk result (ImplementsUnits auction.now interim.now) }
{
    match realise_units(alloc, auction, units, interim)? {
        UnitEnd::Table(rows) => Ok(rows),
        UnitEnd::Violated(_) => unreachable!(),
    }
}
