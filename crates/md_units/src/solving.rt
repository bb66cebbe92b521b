//! Sales of several units solved.
ghost use Rattle.std.specs.Prelude.{◌≡◌, ◌<◌, ◌-◌, ◌^◌, List, ℕ, IfErr, IfOk, MatchResult, length};
ghost use Rattle.md_lp.specs.Cuts.{AreCuts};
ghost use Rattle.md_lp.specs.declared.wide.Wide.{Wide};
ghost use Rattle.md_setting.specs.Auction.{value_count};
ghost use Rattle.md_mech.specs.Optimal.{IsOptimal};
ghost use Rattle.md_mech.specs.Value.{IsValueOf};
ghost use Rattle.md_border.specs.Odds.{IsInterim};
ghost use Rattle.md_cut_runs.specs.declared.cuts_error.CutsError.TheVariants.{Memory};
ghost use Rattle.md_cut_runs.specs.declared.optimum.Optimum.{Optimum};
ghost use Rattle.md_cut_runs.specs.CutRuns.{EndsSettled, EndsWide, HasSmallEntries, IsLeftAt, TellsWide, WhereWide};
ghost use Rattle.md_winners.specs.Odds.{HasUnitOdds, HasUnitPays};
ghost use Rattle.md_winners.specs.Setting.{units_of};
ghost use Rattle.md_unit_tables.specs.Tables.{ImplementsUnits, IsUnitTable, table_of};
ghost use Rattle.md_math.specs.Sizes.{IsWithin};
ghost use Rattle.md_unit_tables.specs.Numbers.{IsUnitNumber};
ghost use Rattle.md_unit_tables.specs.Worth.{HasUnitWorth};
ghost use Rattle.md_units.specs.Solved.{IsSolvedUnits, TellsUnits, mechanism_in};
ghost use Rattle.md_cuts.specs.AuctionCuts.{unit_cutting};

use crate::unit_cuts::UnitSale;
use crate::{UnitsAnswer, UnitsError};
use md_cut_runs::cut_run;
use md_num::Width;
use md_setting::Auction;
use md_unit_tables::unit_worth;
use std::alloc::Global;

/// Solves a sale of so many identical units to the bidders of an auction, each of whom wants one: the cut run over its reduced
/// programs, which begins with the sets of one value each. Its end is an optimal mechanism, or a program both paths of which
/// have a basis that is too wide. Every such sale has an optimal mechanism, so that nothing else comes but want of memory.
pub fn solve_units(
    alloc: Global,
    auction: &Auction,
    units: u32,
    width: Width,
) -> Result<UnitsAnswer, UnitsError>
    requires { IsUnitNumber units }

    // The cuts are those of the cut run, and odds, payments and bound are read off the taken path of the last program.
    ensures solved { IfOk result (IsSolvedUnits auction.now units width) }
    ensures left { IfErr result (IsLeftAt (unit_cutting auction.now units) width) }
    ensures small { IfErr result HasSmallEntries }

    // The unit table has exactly these odds.
    ensures fits { IfOk result (λ answer. IsInterim auction.now answer.interim) }
    ensures table { IfOk result (λ answer. IsUnitTable auction.now units (table_of answer.interim answer.masses)) }
    ensures implements { IfOk result (λ answer. ImplementsUnits auction.now answer.interim answer.masses) }

    // Its mechanism is optimal over all mechanisms of the sale, of any denominator, with numbers of any size.
    ensures optimal { IfOk result (λ answer. IsOptimal (units_of auction.now units) (mechanism_in auction.now units answer)) }
    ensures odds { IfOk result (λ answer. HasUnitOdds auction.now units (mechanism_in auction.now units answer) answer.interim.den answer.interim.odds) }
    ensures pays { IfOk result (λ answer. HasUnitPays auction.now units (mechanism_in auction.now units answer) answer.interim.den answer.interim.pays) }
    ensures worth { IfOk result (λ answer. HasUnitWorth auction.now units answer.interim answer.value) }
    ensures value_fits { IfOk result (λ answer. IsWithin (2 ^ 126 - 1) answer.value.num × IsWithin (2 ^ 126 - 1) answer.value.den) }
    ensures value { IfOk result (λ answer. IsValueOf (units_of auction.now units) (mechanism_in auction.now units answer) answer.value) }

    // There is one run, and it has one end.
    ensures settled { (cuts : List ℕ) (optimum : Optimum) → EndsSettled (unit_cutting auction.now units) width cuts optimum → MatchResult result (TellsUnits auction.now cuts optimum) (λ error. error ≡ Memory) }
    ensures wide { (cuts : List ℕ) (first second : Wide) → EndsWide (unit_cutting auction.now units) width cuts first second → MatchResult result (λ _. ⊥) (TellsWide cuts first second) }

    // No cut comes twice, so that there are fewer than there are sets of values.
    ensures distinct { MatchResult result (λ answer. AreCuts (value_count auction.now) answer.cuts) (WhereWide (AreCuts (value_count auction.now))) }
    ensures few { MatchResult result (λ answer. length answer.cuts < 2 ^ value_count auction.now) (WhereWide (λ cuts. length cuts < 2 ^ value_count auction.now)) }
{
    let _shaped = auction.kinds();
    let sale = UnitSale { auction, units };
    match cut_run(alloc, &sale, width) {
        Ok(end) => {
            let value = unit_worth(auction, units, &end.table.interim);
            Ok(UnitsAnswer {
                value,
                cuts: end.cuts,
                interim: end.table.interim,
                masses: end.table.masses,
                bound: end.optimum.bound,
            })
        }
        Err(error) => Err(error),
    }
}
