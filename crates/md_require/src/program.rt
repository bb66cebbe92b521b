//! The program of a setting with conditions of the designer.
ghost use Rattle.std.specs.Prelude.{◌≡◌, ◌<◌, [], ◌∷◌, IfOk, OnOk, flat_map};
ghost use Rattle.md_space.specs.Profiles.{profile_count};
ghost use Rattle.md_setting.specs.Meaning.{sizes_of};
ghost use Rattle.md_setting.specs.Rows.{column_count};
ghost use Rattle.md_lp.specs.Program.{row_count};
ghost use Rattle.md_forms.specs.Built.{Extends, HasRoom};
ghost use Rattle.md_require.specs.Limits.{AreConditionsFor, IsConditionFor, IsNarrowFor};
ghost use Rattle.md_require.specs.Named.{IsInside, forms_at, named};
ghost use Rattle.md_require.specs.Parts.{IsScaled};
ghost use Rattle.md_require.specs.RequireProgram.{IsRequireProgram, amount_form, at_most_by, condition_forms};

use crate::Condition;
use crate::amount::{Amount, Scaled, amount_at};
use crate::bounds::{at_most, bound};
use crate::terms::amount_terms;
use md_forms::push_form;
use md_lp::{Lp, RowKind};
use md_num::NoMemory;
use md_rows::rows_of;
use md_setting::Setting;
use std::alloc::Global;

/// The program of a setting with conditions: the setting's program, and then the rows of each condition, in their order. Each row is
/// divided by its greatest common divisor.
pub fn require_program(
    alloc: Global,
    setting: &Setting,
    conditions: &[Condition],
) -> Result<Lp, NoMemory>
    requires { AreConditionsFor setting.now conditions.now }
    ensures { IfOk result (IsRequireProgram setting.now conditions.now) }
{
    let mut lp = rows_of(alloc, setting)?;
    push_conditions(alloc, setting, conditions, &mut lp)?;
    Ok(lp)
}

// Appends the rows of each condition.
fn push_conditions(
    alloc: Global,
    setting: &Setting,
    conditions: &[Condition],
    lp: &mut Lp,
) -> Result<(), NoMemory>
    requires conditions { AreConditionsFor setting.now conditions.now }
    requires columns { lp.old.columns ≡ column_count setting.now }
    requires room { HasRoom (flat_map (condition_forms setting.now) conditions.now) lp.old }
    ensures { OnOk result (Extends (flat_map (condition_forms setting.now) conditions.now) lp.old lp.new) }
{
    for condition in conditions {
        push_condition(alloc, setting, condition, lp)?;
    }
    Ok(())
}

// Appends the rows of a condition.
fn push_condition(
    alloc: Global,
    setting: &Setting,
    condition: &Condition,
    lp: &mut Lp,
) -> Result<(), NoMemory>
    requires condition { IsConditionFor setting.now condition.now }
    requires columns { lp.old.columns ≡ column_count setting.now }
    requires room { HasRoom (condition_forms setting.now condition.now) lp.old }
    ensures { OnOk result (Extends (condition_forms setting.now condition.now) lp.old lp.new) }
{
    for rank in 0..setting.space().profiles() {
        push_rank(alloc, setting, condition, rank, lp)?;
    }
    Ok(())
}

// Appends the row of the amount that a condition has at a rank, if it has one there.
fn push_rank(
    alloc: Global,
    setting: &Setting,
    condition: &Condition,
    rank: u32,
    lp: &mut Lp,
) -> Result<(), NoMemory>
    requires condition { IsConditionFor setting.now condition.now }
    requires rank_in { rank < profile_count (sizes_of setting.now) }
    requires columns { lp.old.columns ≡ column_count setting.now }
    requires room { HasRoom (forms_at setting.now condition.now rank) lp.old }
    ensures { OnOk result (Extends (forms_at setting.now condition.now rank) lp.old lp.new) }
{
    match amount_at(setting, condition.measured, rank) {
        Some(amount) => push_amount(alloc, setting, condition, amount, lp),
        None => Ok(()),
    }
}

// Appends the row of an amount of a condition.
fn push_amount(
    alloc: Global,
    setting: &Setting,
    condition: &Condition,
    amount: Amount,
    lp: &mut Lp,
) -> Result<(), NoMemory>
    requires condition { IsConditionFor setting.now condition.now }
    requires inside { IsInside setting.now amount }
    requires narrow { IsNarrowFor setting.now condition.now (named setting.now amount) }
    requires columns { lp.old.columns ≡ column_count setting.now }
    requires room { row_count lp.old < 8192 }
    ensures { OnOk result (Extends (amount_form setting.now condition.now (named setting.now amount) ∷ []) lp.old lp.new) }
{
    let scaled = scaled(setting, condition, amount);
    let terms = amount_terms(alloc, setting, &scaled)?;
    let right = at_most(condition.side, bound(setting, condition, amount));
    push_form(lp, RowKind::AtMost, &terms, right)
}

/// An amount times the denominator of its bound, turned over where it is to be at least that.
pub(crate) fn scaled(setting: &Setting, condition: &Condition, amount: Amount) -> Scaled
    requires condition { IsConditionFor setting.now condition.now }
    requires inside { IsInside setting.now amount }
    requires narrow { IsNarrowFor setting.now condition.now (named setting.now amount) }
    ensures scaled { IsScaled setting.now result }
    ensures amount { result.amount ≡ amount }
    ensures scale { result.scale ≡ at_most_by condition.now.side condition.now.den }
{
    Scaled {
        amount,
        scale: at_most(condition.side, condition.den),
    }
}
