//! The conditions as rows.
ghost use Rattle.std.specs.Prelude.{◌≡◌, ◌≢◌, ◌<◌, [], ◌∷◌, slice_index, OnOk};
ghost use Rattle.md_setting.specs.Meaning.{agent_count, sizes_of};
ghost use Rattle.md_lp.specs.Program.{row_count};
ghost use Rattle.md_forms.specs.Built.{Extends};
ghost use Rattle.md_asym_sale.specs.declared.condition.SaleCondition.TheVariants.{Truth, Rational, Cut};
ghost use Rattle.md_asym_sale.specs.Conditions.{IsInside};
ghost use Rattle.md_asym_sale.specs.ProgramOf.{column_count, form_of};
ghost use Rattle.md_asym_sale.specs.Sale.{IsSale};

use crate::condition::SaleCondition;
use crate::sides::right_side;
use crate::terms::{cut_terms, rational_terms, truth_terms};
use md_forms::push_form;
use md_lp::{Lp, RowKind};
use md_num::NoMemory;
use md_setting::Setting;
use std::alloc::Global;

/// Appends the row of a condition.
pub(crate) fn push_condition(
    alloc: Global,
    setting: &Setting,
    condition: SaleCondition,
    lp: &mut Lp,
) -> Result<(), NoMemory>
    requires sale { IsSale setting.now }
    requires inside { IsInside setting.now condition }
    requires columns { lp.old.columns ≡ column_count setting.now }
    requires room { row_count lp.old < 8192 }
    ensures { OnOk result (Extends (form_of setting.now condition ∷ []) lp.old lp.new) }
{
    match condition {
        SaleCondition::Truth { agent, kind, other } => {
            push_truth(alloc, setting, agent, kind, other, lp)
        }
        SaleCondition::Rational { agent, kind } => push_rational(alloc, setting, agent, kind, lp),
        SaleCondition::Cut { set } => push_cut(alloc, setting, set, lp),
    }
}

fn push_truth(
    alloc: Global,
    setting: &Setting,
    agent: u8,
    kind: u8,
    other: u8,
    lp: &mut Lp,
) -> Result<(), NoMemory>
    requires sale { IsSale setting.now }
    requires agent_in { agent < agent_count setting.now }
    requires kind_in { kind < slice_index (sizes_of setting.now) agent }
    requires other_in { other < slice_index (sizes_of setting.now) agent }
    requires apart { other ≢ kind }
    requires columns { lp.old.columns ≡ column_count setting.now }
    requires room { row_count lp.old < 8192 }
    ensures { OnOk result (Extends (form_of setting.now (Truth agent kind other) ∷ []) lp.old lp.new) }
{
    let terms = truth_terms(alloc, setting, agent, kind, other)?;
    push_form(lp, RowKind::AtMost, &terms, 0)
}

fn push_rational(
    alloc: Global,
    setting: &Setting,
    agent: u8,
    kind: u8,
    lp: &mut Lp,
) -> Result<(), NoMemory>
    requires sale { IsSale setting.now }
    requires agent_in { agent < agent_count setting.now }
    requires kind_in { kind < slice_index (sizes_of setting.now) agent }
    requires columns { lp.old.columns ≡ column_count setting.now }
    requires room { row_count lp.old < 8192 }
    ensures { OnOk result (Extends (form_of setting.now (Rational agent kind) ∷ []) lp.old lp.new) }
{
    let terms = rational_terms(alloc, setting, agent, kind)?;
    push_form(lp, RowKind::AtMost, &terms, 0)
}

fn push_cut(alloc: Global, setting: &Setting, set: u32, lp: &mut Lp) -> Result<(), NoMemory>
    requires sale { IsSale setting.now }
    requires columns { lp.old.columns ≡ column_count setting.now }
    requires room { row_count lp.old < 8192 }
    ensures { OnOk result (Extends (form_of setting.now (Cut set) ∷ []) lp.old lp.new) }
{
    let terms = cut_terms(alloc, setting, set)?;
    push_form(lp, RowKind::AtMost, &terms, right_side(setting, set))
}
