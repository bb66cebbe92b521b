//! Sales solved.
ghost use Rattle.std.specs.Prelude.{◌≡◌, ◌<◌, ◌^◌, List, ℕ, IfErr, IfOk, MatchResult, length};
ghost use Rattle.md_lp.specs.Cuts.{AreCuts};
ghost use Rattle.md_lp.specs.declared.wide.Wide.{Wide};
ghost use Rattle.md_mech.specs.Value.{IsValueOf};
ghost use Rattle.md_cut_runs.specs.declared.cuts_error.CutsError.TheVariants.{Memory};
ghost use Rattle.md_cut_runs.specs.declared.optimum.Optimum.{Optimum};
ghost use Rattle.md_cut_runs.specs.CutRuns.{EndsSettled, EndsWide, HasSmallEntries, IsLeftAt, TellsWide, WhereWide};
ghost use Rattle.md_asym_sale.specs.Sale.{IsSale};
ghost use Rattle.md_asym_sale.specs.Values.{pairs_of};
ghost use Rattle.md_question_check.specs.declared.verdict.Verdict.TheVariants.{Valid};
ghost use Rattle.md_asym_tables.specs.Tables.{Implements};
ghost use Rattle.md_asym.specs.AnswerTo.{IsAnswerTo, mechanism_in};
ghost use Rattle.md_asym.specs.SaleVerdicts.{IsBestSale, IsSaleVerdict};
ghost use Rattle.md_asym.specs.declared.sale_answer.SaleAnswer.TheVariants.{Optimal};
ghost use Rattle.md_asym_solve.specs.SaleCuts.{sale_cutting};
ghost use Rattle.md_asym_solve.specs.Solved.{IsSolvedSale, TellsSale};

use crate::AsymError;
use crate::sale::Sale;
use md_asym::{AsymAnswer, sale_worth};
use md_border::Interim;
use md_cut_runs::cut_run;
use md_num::Width;
use md_setting::Setting;
use std::alloc::Global;

/// Solves a sale of one item to bidders who differ: the cut run over its programs, which begins with the sets of one pair
/// each. Its end is an optimal mechanism, or a program both paths of which have a basis that is too wide. Every sale has an
/// optimal mechanism, so that nothing else comes but want of memory.
pub fn solve_asym(alloc: Global, setting: &Setting, width: Width) -> Result<AsymAnswer, AsymError>
    requires { IsSale setting.now }

    // The cuts are those of the cut run, and odds, payments and bound are read off the taken path of the last program.
    ensures solved { IfOk result (IsSolvedSale setting.now width) }
    ensures left { IfErr result (IsLeftAt (sale_cutting setting.now) width) }
    ensures small { IfErr result HasSmallEntries }

    // It is an answer that the checker finds valid: its mechanism is optimal over all mechanisms of the setting, of any
    // denominator, with numbers of any size, and has the odds, the payments and the value, which is in least terms.
    ensures fits { IfOk result (IsAnswerTo setting.now) }
    ensures valid { IfOk result (λ answer. IsSaleVerdict setting.now (Optimal answer) Valid) }
    ensures best { IfOk result (IsBestSale setting.now) }
    ensures value { IfOk result (λ answer. IsValueOf setting.now (mechanism_in setting.now answer) answer.value) }

    // The profile table has exactly the odds.
    ensures implements { IfOk result (λ answer. Implements setting.now answer.interim.odds answer.masses) }

    // There is one run, and it has one end.
    ensures settled { (cuts : List ℕ) (optimum : Optimum) → EndsSettled (sale_cutting setting.now) width cuts optimum → MatchResult result (TellsSale setting.now cuts optimum) (λ error. error ≡ Memory) }
    ensures wide { (cuts : List ℕ) (first second : Wide) → EndsWide (sale_cutting setting.now) width cuts first second → MatchResult result (λ _. ⊥) (TellsWide cuts first second) }

    // No cut comes twice, so that there are fewer than there are sets of pairs.
    ensures distinct { MatchResult result (λ answer. AreCuts (pairs_of setting.now) answer.cuts) (WhereWide (AreCuts (pairs_of setting.now))) }
    ensures few { MatchResult result (λ answer. length answer.cuts < 2 ^ pairs_of setting.now) (WhereWide (λ cuts. length cuts < 2 ^ pairs_of setting.now)) }
{
    let _shaped = setting.total();
    let sale = Sale { setting };
    match cut_run(alloc, &sale, width) {
        Ok(end) => {
            let value = sale_worth(setting, end.optimum.den, &end.table.odds, &end.table.pays);
            Ok(AsymAnswer {
                value,
                interim: Interim {
                    den: end.optimum.den,
                    odds: end.table.odds,
                    pays: end.table.pays,
                },
                masses: end.table.masses,
                cuts: end.cuts,
                bound: end.optimum.bound,
            })
        }
        Err(error) => Err(error),
    }
}
