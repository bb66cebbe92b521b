//! The linear program of a setting.
ghost use Rattle.std.specs.Prelude.{◌≡◌, [], length, IfOk, OnErr, OnOk};
ghost use Rattle.md_setting.specs.Rows.{column_count};
ghost use Rattle.md_setting.specs.Shaped.{IsShaped};
ghost use Rattle.md_mech.specs.Rows.{conditions_of};
ghost use Rattle.md_lp.specs.Program.{row_count};
ghost use Rattle.md_forms.specs.ProgramOf.{HasCostOf};
ghost use Rattle.md_rows.specs.Built.{HasRoom, Extends, ExtendsInPart};
ghost use Rattle.md_rows.specs.ProgramOf.{HasEachRow, IsProgramOf};
ghost use Rattle.md_rows.specs.Sides.{cost_in};
ghost use Rattle.md_rows.specs.Law.{AdmitsPoints, AdmitsMechanisms, CostsPoints, CostsMechanisms};

use crate::conditions::push_condition;
use crate::costs::cost;
use crate::layout::columns;
use md_forms::want_of;
use md_lp::Lp;
use md_mech::condition_at;
use md_num::NoMemory;
use md_setting::Setting;
use std::alloc::Global;

/// The linear program of a setting. Its columns are the chances, by the rank of the profile, then by outcome, and where
/// there are payments the plus parts and then the minus parts of all payments, each by agent, then by rank.
/// Its rows are the setting's conditions in their order. Each row, and the cost, is divided by its greatest common divisor.
pub fn rows_of(alloc: Global, setting: &Setting) -> Result<Lp, NoMemory>
    ensures program { IfOk result (IsProgramOf setting.now) }
    ensures each_row { IfOk result (HasEachRow setting.now) }
    ensures count { IfOk result (λ lp. row_count lp ≡ length (conditions_of setting.now)) }

    // Mechanisms and points of any denominator, with numbers of any size.
    ensures admits_points { IfOk result (AdmitsPoints setting.now) }
    ensures admits_mechanisms { IfOk result (AdmitsMechanisms setting.now) }
    ensures costs_points { IfOk result (CostsPoints setting.now) }
    ensures costs_mechanisms { IfOk result (CostsMechanisms setting.now) }
{
    let mut lp = without_rows(alloc, setting)?;
    push_rows(alloc, setting, &mut lp)?;
    Ok(lp)
}

/// Appends a row for each condition of a setting, in their order, to a program that has the columns of the setting's
/// program and maybe more behind them. Each row is divided by its greatest common divisor. Where memory ran out the rows
/// of the first conditions were appended, and no other.
pub fn push_rows(alloc: Global, setting: &Setting, lp: &mut Lp) -> Result<(), NoMemory>
    requires { HasRoom setting.now (conditions_of setting.now) lp.old }
    ensures ok { OnOk result (Extends setting.now (conditions_of setting.now) lp.old lp.new) }
    ensures err { OnErr result (ExtendsInPart setting.now (conditions_of setting.now) lp.old lp.new) }
{
    for row in 0..setting.rows() {
        push_condition(alloc, setting, condition_at(setting, row), lp)?;
    }
    Ok(())
}

// The program with its columns and its cost.
fn without_rows(alloc: Global, setting: &Setting) -> Result<Lp, NoMemory>
    ensures columns { IfOk result (λ lp. lp.columns ≡ column_count setting.now) }
    ensures cost { IfOk result (HasCostOf (column_count setting.now) (cost_in setting.now)) }
    ensures no_row { IfOk result (λ lp. lp.rows ≡ []) }
    ensures shaped { IfOk result (λ _. IsShaped setting.now) }
{
    match Lp::new(alloc, columns(setting), cost(alloc, setting)?) {
        Ok(lp) => Ok(lp),
        Err(refusal) => Err(want_of(refusal)),
    }
}
