//! The program of a node.
ghost use Rattle.std.specs.Prelude.{◌≡◌, ◌<◌, [], ◌∷◌, length, IfOk, OnOk};
ghost use Rattle.md_space.specs.Profiles.{profile_count};
ghost use Rattle.md_setting.specs.Meaning.{outcome_count, sizes_of};
ghost use Rattle.md_setting.specs.Rows.{column_count};
ghost use Rattle.md_mech.specs.Rows.{conditions_of};
ghost use Rattle.md_lp.specs.Program.{row_count};
ghost use Rattle.md_forms.specs.Built.{Extends, HasRoom};
ghost use Rattle.md_rows.specs.ProgramOf.{HasEachRow};
ghost use Rattle.md_determ_node.specs.Law.{IsNodeProgramWithLaws};
ghost use Rattle.md_determ_node.specs.NodeProgram.{IsNode, IsNodeProgram, fixed_form, fixed_forms, forms_at, row_count_of};

use md_determ_branching::Fixed;
use md_forms::push_form;
use md_lp::{Lp, RowKind, Term};
use md_num::NoMemory;
use md_rows::rows_of;
use md_setting::Setting;
use std::alloc::Global;

/// The linear program of a node: the setting's program, and behind its rows one for each outcome that is fixed, by the rank
/// of the profile, which says that the chance of the outcome is 1 there.
pub fn node_program(alloc: Global, setting: &Setting, fixed: &Fixed) -> Result<Lp, NoMemory>
    requires { IsNode setting.now fixed.now }
    ensures program { IfOk result (IsNodeProgram setting.now fixed.now) }
    ensures each_row { IfOk result (HasEachRow setting.now) }
    ensures count { IfOk result (λ lp. row_count lp ≡ row_count_of setting.now fixed.now) }

    // Mechanisms and points of any denominator, with numbers of any size.
    ensures laws { IfOk result (IsNodeProgramWithLaws setting.now fixed.now) }
{
    let mut lp = rows_of(alloc, setting)?;
    push_fixed(setting, fixed, &mut lp)?;
    Ok(lp)
}

// Appends a row for each outcome that is fixed.
fn push_fixed(setting: &Setting, fixed: &Fixed, lp: &mut Lp) -> Result<(), NoMemory>
    requires node { IsNode setting.now fixed.now }
    requires columns { lp.old.columns ≡ column_count setting.now }
    requires count { row_count lp.old ≡ length (conditions_of setting.now) }
    ensures { OnOk result (Extends (fixed_forms setting.now fixed.now) lp.old lp.new) }
{
    for rank in 0..setting.space().profiles() {
        push_rank(setting, fixed, rank, lp)?;
    }
    Ok(())
}

// Appends the row of the outcome that is fixed at a rank, if there is one.
fn push_rank(setting: &Setting, fixed: &Fixed, rank: u32, lp: &mut Lp) -> Result<(), NoMemory>
    requires node { IsNode setting.now fixed.now }
    requires rank_in { rank < length fixed.now }
    requires columns { lp.old.columns ≡ column_count setting.now }
    requires room { HasRoom (forms_at setting.now fixed.now rank) lp.old }
    ensures { OnOk result (Extends (forms_at setting.now fixed.now rank) lp.old lp.new) }
{
    match fixed.outcome(rank) {
        Some(outcome) => push_outcome(setting, rank, outcome, lp),
        None => Ok(()),
    }
}

// Appends the row of an outcome that is fixed.
fn push_outcome(setting: &Setting, rank: u32, outcome: u32, lp: &mut Lp) -> Result<(), NoMemory>
    requires rank_in { rank < profile_count (sizes_of setting.now) }
    requires outcome_in { outcome < outcome_count setting.now }
    requires columns { lp.old.columns ≡ column_count setting.now }
    requires room { row_count lp.old < 8192 }
    ensures { OnOk result (Extends (fixed_form setting.now rank outcome ∷ []) lp.old lp.new) }
{
    let column = rank * setting.outcomes() + outcome;
    push_form(lp, RowKind::Exact, &[Term { column, value: 1 }], 1)
}
