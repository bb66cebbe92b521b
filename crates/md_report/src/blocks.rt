//! The worst of the conditions of each agent.
ghost use Rattle.std.specs.Prelude.{◌≡◌, ◌<◌, ◌≤◌, ◌+◌, IfOk, length};
ghost use Rattle.md_setting.specs.Meaning.{agent_count};
ghost use Rattle.md_report.specs.declared.demand.Demand.TheVariants.{Truthful, Willing};
ghost use Rattle.md_report.specs.Blocks.{rows_of, all_rows, start_of};
ghost use Rattle.md_report.specs.Numbers.{AreNumbers};
ghost use Rattle.md_report.specs.Worst.{AreWorstOf};

use crate::demand::Demand;
use crate::worst::Worst;
use crate::worst_rows::worst_row;
use md_mech::Mechanism;
use md_num::NoMemory;
use md_setting::{Rational, Setting, Truth};
use std::alloc::Global;

/// By agent the worst of the conditions of one kind, where it has some.
pub(crate) fn worst_by_agent(
    alloc: Global,
    setting: &Setting,
    mechanism: &Mechanism,
    demand: Demand,
) -> Result<Vec<Option<Worst>>, NoMemory>
    requires { AreNumbers setting.now mechanism.now }
    ensures { IfOk result (λ worst. AreWorstOf setting.now mechanism.now demand worst.items) }
{
    let mut worst = Vec::new(alloc);
    let mut row = start(setting, demand);
    for agent in 0..setting.space().agents() {
        let next = row + count(setting, demand, agent);
        worst.push(worst_row(setting, mechanism, row, next))?;
        row = next;
    }
    Ok(worst)
}

// The first row of one kind.
fn start(setting: &Setting, demand: Demand) -> u32
    ensures value { result ≡ start_of setting.now demand }
    ensures few { result ≤ 4096 }
{
    match demand {
        Demand::Truthful => 0,
        Demand::Willing => total(setting, Demand::Truthful),
    }
}

// How many rows there are of one kind.
fn total(setting: &Setting, demand: Demand) -> u32
    ensures value { result ≡ length (all_rows setting.now demand) }
    ensures few { result ≤ 4096 }
{
    let mut rows = 0;
    for agent in 0..setting.space().agents() {
        rows += count(setting, demand, agent);
    }
    rows
}

// How many of them are about an agent.
fn count(setting: &Setting, demand: Demand, agent: u8) -> u32
    requires { agent < agent_count setting.now }
    ensures value { result ≡ length (rows_of setting.now demand agent) }
    ensures few { result ≤ 16384 }
{
    match demand {
        Demand::Truthful => truth_rows(setting, agent),
        Demand::Willing => rational_rows(setting, agent),
    }
}

fn truth_rows(setting: &Setting, agent: u8) -> u32
    requires { agent < agent_count setting.now }
    ensures value { result ≡ length (rows_of setting.now Truthful agent) }
    ensures few { result ≤ 16384 }
{
    let types = u32::from(setting.space().types(agent));
    match setting.truth() {
        Truth::Dominant => setting.space().profiles() * (types - 1),
        Truth::Bayes => types * (types - 1),
    }
}

fn rational_rows(setting: &Setting, agent: u8) -> u32
    requires { agent < agent_count setting.now }
    ensures value { result ≡ length (rows_of setting.now Willing agent) }
    ensures few { result ≤ 16384 }
{
    match setting.rational() {
        Rational::None => 0,
        Rational::ExPost => setting.space().profiles(),
        Rational::Interim => u32::from(setting.space().types(agent)),
    }
}
