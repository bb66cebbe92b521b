//! The fair program of a setting.
ghost use Rattle.std.specs.Prelude.{◌≡◌, ◌+◌, ◌<◌, [], ◌∷◌, IfOk, OnOk};
ghost use Rattle.md_setting.specs.Meaning.{agent_count};
ghost use Rattle.md_setting.specs.Rows.{column_count, row_count as setting_rows};
ghost use Rattle.md_setting.specs.Shaped.{IsShaped};
ghost use Rattle.md_lp.specs.Program.{row_count};
ghost use Rattle.md_forms.specs.Built.{Extends, HasRoom};
ghost use Rattle.md_forms.specs.ProgramOf.{HasCostOf};
ghost use Rattle.md_fair.specs.FairProgram.{IsFairProgram, agent_form, agent_forms, level_in};
ghost use Rattle.md_fair.specs.Law.{AdmitsLevels, AdmitsMechanisms};

use crate::costs::cost;
use crate::layout::level_column;
use crate::terms::agent_terms;
use md_forms::{push_form, want_of};
use md_lp::{Lp, RowKind};
use md_num::NoMemory;
use md_rows::push_rows;
use md_setting::Setting;
use std::alloc::Global;

/// The fair program of a setting. Its columns are those of the setting's program, and then the plus and the minus part of a
/// level. Its rows are those of the setting's program, and then one for each agent, which says that the level is at most
/// what the agent gets on average. Its cost is the level. Each row is divided by its greatest common divisor.
pub fn fair_program(alloc: Global, setting: &Setting) -> Result<Lp, NoMemory>
    ensures program { IfOk result (IsFairProgram setting.now) }
    ensures count { IfOk result (λ lp. row_count lp ≡ setting_rows setting.now + agent_count setting.now) }

    // Its points are the admissible mechanisms with levels that are at most what each agent gets on average: of any
    // denominator, with numbers of any size.
    ensures admits_mechanisms { IfOk result (AdmitsMechanisms setting.now) }
    ensures admits_levels { IfOk result (AdmitsLevels setting.now) }
{
    let mut lp = without_rows(alloc, setting)?;
    push_rows(alloc, setting, &mut lp)?;
    push_agents(alloc, setting, &mut lp)?;
    Ok(lp)
}

// Appends a row for each agent.
fn push_agents(alloc: Global, setting: &Setting, lp: &mut Lp) -> Result<(), NoMemory>
    requires columns { lp.old.columns ≡ column_count setting.now + 2 }
    requires room { HasRoom (agent_forms setting.now) lp.old }
    ensures { OnOk result (Extends (agent_forms setting.now) lp.old lp.new) }
{
    for agent in 0..setting.space().agents() {
        push_agent(alloc, setting, agent, lp)?;
    }
    Ok(())
}

// Appends the row of an agent.
fn push_agent(alloc: Global, setting: &Setting, agent: u8, lp: &mut Lp) -> Result<(), NoMemory>
    requires agent_in { agent < agent_count setting.now }
    requires columns { lp.old.columns ≡ column_count setting.now + 2 }
    requires room { row_count lp.old < 8192 }
    ensures { OnOk result (Extends (agent_form setting.now agent ∷ []) lp.old lp.new) }
{
    let terms = agent_terms(alloc, setting, agent)?;
    push_form(lp, RowKind::AtMost, &terms, 0)
}

// The program with its columns and its cost.
fn without_rows(alloc: Global, setting: &Setting) -> Result<Lp, NoMemory>
    ensures columns { IfOk result (λ lp. lp.columns ≡ column_count setting.now + 2) }
    ensures cost { IfOk result (HasCostOf (column_count setting.now + 2) (level_in setting.now)) }
    ensures no_row { IfOk result (λ lp. lp.rows ≡ []) }
    ensures shaped { IfOk result (λ _. IsShaped setting.now) }
{
    match Lp::new(alloc, level_column(setting) + 2, cost(alloc, setting)?) {
        Ok(lp) => Ok(lp),
        Err(refusal) => Err(want_of(refusal)),
    }
}
