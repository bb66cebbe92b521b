//! The program of a sale.
ghost use Rattle.std.specs.Prelude.{◌≡◌, [], length, IfOk, OnOk};
ghost use Rattle.md_setting.specs.Shaped.{IsShaped};
ghost use Rattle.md_lp.specs.Cuts.{AreCuts};
ghost use Rattle.md_lp.specs.Program.{row_count};
ghost use Rattle.md_forms.specs.Built.{HasRoom, Extends};
ghost use Rattle.md_forms.specs.ProgramOf.{HasCostOf};
ghost use Rattle.md_asym_sale.specs.Conditions.{conditions_of};
ghost use Rattle.md_asym_sale.specs.Forms.{cost_of};
ghost use Rattle.md_asym_sale.specs.ProgramOf.{IsSaleProgram, HasEachRow, MeetsByConditions, CostsPoints, column_count, forms_of};
ghost use Rattle.md_asym_sale.specs.Sale.{IsSale};
ghost use Rattle.md_asym_sale.specs.Values.{pairs_of};

use crate::condition::{condition_at, row_count};
use crate::costs::cost;
use crate::pairs::pair_count;
use crate::rows::push_condition;
use md_forms::want_of;
use md_lp::{Lp, Sets};
use md_num::NoMemory;
use md_setting::Setting;
use std::alloc::Global;

/// The program of a sale with some cuts. Its columns are the odds, the plus parts and the minus parts of the payments, each
/// by pair of an agent and a type. Its rows, all of them at most their right sides, are the conditions: on truth by agent,
/// type and other type, on taking part by pair, and the cuts in their order. Each row, and the cost, is divided by its
/// greatest common divisor. Nothing but want of memory is an error.
pub fn program(alloc: Global, setting: &Setting, cuts: &Sets) -> Result<Lp, NoMemory>
    requires sale { IsSale setting.now }
    requires cuts { AreCuts (pairs_of setting.now) cuts.now }
    ensures program { IfOk result (IsSaleProgram setting.now cuts.now) }
    ensures each_row { IfOk result (HasEachRow setting.now cuts.now) }
    ensures count { IfOk result (λ lp. row_count lp ≡ length (conditions_of setting.now cuts.now)) }

    // Points of any denominator, with numbers of any size.
    ensures meets { IfOk result (MeetsByConditions setting.now cuts.now) }
    ensures costs { IfOk result (CostsPoints setting.now) }
{
    let mut lp = without_rows(alloc, setting)?;
    push_rows(alloc, setting, cuts, &mut lp)?;
    Ok(lp)
}

// Appends a row for each condition.
fn push_rows(alloc: Global, setting: &Setting, cuts: &Sets, lp: &mut Lp) -> Result<(), NoMemory>
    requires sale { IsSale setting.now }
    requires cuts { AreCuts (pairs_of setting.now) cuts.now }
    requires columns { lp.old.columns ≡ column_count setting.now }
    requires room { HasRoom (forms_of setting.now (conditions_of setting.now cuts.now)) lp.old }
    ensures { OnOk result (Extends (forms_of setting.now (conditions_of setting.now cuts.now)) lp.old lp.new) }
{
    for row in 0..row_count(setting, cuts) {
        push_condition(alloc, setting, condition_at(setting, cuts, row), lp)?;
    }
    Ok(())
}

// The program with its columns and its cost.
fn without_rows(alloc: Global, setting: &Setting) -> Result<Lp, NoMemory>
    requires { IsSale setting.now }
    ensures columns { IfOk result (λ lp. lp.columns ≡ column_count setting.now) }
    ensures cost { IfOk result (HasCostOf (column_count setting.now) (cost_of setting.now)) }
    ensures no_row { IfOk result (λ lp. lp.rows ≡ []) }
    ensures shaped { IfOk result (λ _. IsShaped setting.now) }
{
    match Lp::new(alloc, 3 * pair_count(setting), cost(alloc, setting)?) {
        Ok(lp) => Ok(lp),
        Err(refusal) => Err(want_of(refusal)),
    }
}
