//! The general setting that a number stands for.
ghost use Rattle.std.specs.Prelude.{◌≡◌, ◌<◌, ◌∷◌, [], codes, IfOk, pos, map};
ghost use Rattle.md_math.specs.Lists.{list_to};
ghost use Rattle.md_setting.specs.Setting.{lists_of, names_of, written, written_agent};
ghost use Rattle.md_gen.specs.GeneratedSetting.{utility_at, utilities_of, worths_of, generated_agent, generated_setting};

use crate::draws::draw;
use crate::refusal::out_of_memory;
use md_num::NoMemory;
use md_setting::{Rational, RawAgent, RawSetting, Setting, Truth};
use std::alloc::Global;

/// Two agents of four types each and three outcomes.
pub(crate) fn setting(alloc: Global, number: u32) -> Result<Setting, NoMemory>
    ensures { IfOk result (λ setting. setting ≡ generated_setting number) }
{
    match Setting::new(alloc, raw_setting(alloc, number)?) {
        Ok(setting) => Ok(setting),
        Err(refusal) => Err(out_of_memory(refusal)),
    }
}

fn raw_setting(alloc: Global, number: u32) -> Result<RawSetting, NoMemory>
    ensures { IfOk result (λ raw. written raw ≡ generated_setting number) }
{
    Ok(RawSetting {
        agents: agents(alloc, number)?,
        outcomes: outcomes(alloc)?,
        prior: None,
        values: worths(alloc, number)?,
        welfare: 0,
        revenue: 1,
        truth: Truth::Bayes,
        rational: Rational::Interim,
        payments: true,
        no_deficit: false,
    })
}

fn agents(alloc: Global, number: u32) -> Result<Vec<RawAgent>, NoMemory>
    ensures { IfOk result (λ agents. map written_agent agents.items ≡ generated_agent number (codes "a") 0 ∷ generated_agent number (codes "b") 1 ∷ []) }
{
    let mut agents = Vec::new(alloc);
    agents.push(agent(alloc, number, "a", 0)?)?;
    agents.push(agent(alloc, number, "b", 1)?)?;
    Ok(agents)
}

// An agent of a name, with four types of the same weight.
fn agent(alloc: Global, number: u32, name: &str, place: u32) -> Result<RawAgent, NoMemory>
    requires { place < 2 }
    ensures { IfOk result (λ agent. written_agent agent ≡ generated_agent number name.now place) }
{
    Ok(RawAgent {
        name: String::from_str(alloc, name)?,
        types: types(alloc)?,
        weights: Vec::from_slice(alloc, &[1, 1, 1, 1])?,
        outside: Vec::from_slice(alloc, &[0, 0, 0, 0])?,
        utility: utilities(alloc, number, place)?,
        at: None,
    })
}

fn types(alloc: Global) -> Result<Vec<String>, NoMemory>
    ensures { IfOk result (λ types. names_of types.items ≡ codes "t0" ∷ codes "t1" ∷ codes "t2" ∷ codes "t3" ∷ []) }
{
    let mut types = Vec::new(alloc);
    types.push(String::from_str(alloc, "t0")?)?;
    types.push(String::from_str(alloc, "t1")?)?;
    types.push(String::from_str(alloc, "t2")?)?;
    types.push(String::from_str(alloc, "t3")?)?;
    Ok(types)
}

fn outcomes(alloc: Global) -> Result<Vec<String>, NoMemory>
    ensures { IfOk result (λ outcomes. names_of outcomes.items ≡ codes "x" ∷ codes "y" ∷ codes "z" ∷ []) }
{
    let mut outcomes = Vec::new(alloc);
    outcomes.push(String::from_str(alloc, "x")?)?;
    outcomes.push(String::from_str(alloc, "y")?)?;
    outcomes.push(String::from_str(alloc, "z")?)?;
    Ok(outcomes)
}

// The utilities of an agent, by type.
fn utilities(alloc: Global, number: u32, agent: u32) -> Result<Vec<Vec<i64>>, NoMemory>
    requires { agent < 2 }
    ensures { IfOk result (λ rows. lists_of rows.items ≡ utilities_of number agent) }
{
    let mut rows = Vec::new(alloc);
    for kind in 0..4 {
        rows.push(row(alloc, number, agent, kind)?)?;
    }
    Ok(rows)
}

// The utilities of a type, by outcome.
fn row(alloc: Global, number: u32, agent: u32, kind: u32) -> Result<Vec<i64>, NoMemory>
    requires agent { agent < 2 }
    requires kind { kind < 4 }
    ensures { IfOk result (λ row. row.items ≡ list_to 3 (λ o. pos (utility_at number agent kind o))) }
{
    let mut row = Vec::new(alloc);
    for outcome in 0..3 {
        row.push(i64::from(draw(number, 12 * agent + 3 * kind + outcome + 1) % 21))?;
    }
    Ok(row)
}

// What each outcome is worth to the designer.
fn worths(alloc: Global, number: u32) -> Result<Vec<i64>, NoMemory>
    ensures { IfOk result (λ worths. worths.items ≡ worths_of number) }
{
    let mut worths = Vec::new(alloc);
    for outcome in 0..3 {
        worths.push(i64::from(draw(number, outcome + 25) % 11))?;
    }
    Ok(worths)
}
