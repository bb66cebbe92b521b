//! What each type of each agent gets and pays.
ghost use Rattle.std.specs.Prelude.{◌≡◌, ◌<◌, ◌++◌, IfOk, OnOk, List, slice_index};
ghost use Rattle.md_setting.specs.Meaning.{agent_count, sizes_of};
ghost use Rattle.md_report.specs.Numbers.{AreNumbers};
ghost use Rattle.md_report.specs.Types.{all_types, types_of, TypeOf, AreTold, IsToldOf};

use crate::amount::Amount;
use crate::averages::expected_given;
use crate::type_numbers::TypeNumbers;
use md_mech::Mechanism;
use md_num::NoMemory;
use md_setting::Setting;
use std::alloc::Global;

/// What each type of each agent gets and pays, by agent, then by type.
pub(crate) fn types(
    alloc: Global,
    setting: &Setting,
    mechanism: &Mechanism,
) -> Result<Vec<TypeNumbers>, NoMemory>
    requires { AreNumbers setting.now mechanism.now }
    ensures { IfOk result (λ told. AreTold setting.now mechanism.now (all_types setting.now) told.items) }
{
    let mut told = Vec::new(alloc);
    for agent in 0..setting.space().agents() {
        push_types(&mut told, setting, mechanism, agent)?;
    }
    Ok(told)
}

// Those of one agent, behind others.
fn push_types(
    told: &mut Vec<TypeNumbers>,
    setting: &Setting,
    mechanism: &Mechanism,
    agent: u8,
) -> Result<(), NoMemory>
    requires numbers { AreNumbers setting.now mechanism.now }
    requires agent_in { agent < agent_count setting.now }
    ensures { OnOk result ((before : List TypeOf) → AreTold setting.now mechanism.now before told.old.items → AreTold setting.now mechanism.now (before ++ types_of setting.now agent) told.new.items) }
{
    for kind in 0..setting.space().types(agent) {
        told.push(type_numbers(setting, mechanism, agent, kind))?;
    }
    Ok(())
}

fn type_numbers(setting: &Setting, mechanism: &Mechanism, agent: u8, kind: u8) -> TypeNumbers
    requires numbers { AreNumbers setting.now mechanism.now }
    requires agent_in { agent < agent_count setting.now }
    requires kind_in { kind < slice_index (sizes_of setting.now) agent }
    ensures told { IsToldOf setting.now mechanism.now result }
    ensures agent { result.agent ≡ agent }
    ensures kind { result.kind ≡ kind }
{
    TypeNumbers {
        agent,
        kind,
        utility: expected_given(setting, mechanism, agent, kind, Amount::Utility),
        payment: expected_given(setting, mechanism, agent, kind, Amount::Payment),
    }
}
