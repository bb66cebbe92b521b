//! The names that records of conditions may have.
ghost use Rattle.std.specs.Prelude.{◌≡◌, ◌<◌, ◌∷◌, ◌++◌, [], IfOk, OnOk, map, slice_index_or, string_bytes};
ghost use Rattle.md_space.specs.Profiles.{profile_at, profile_count};
ghost use Rattle.md_setting.specs.Meaning.{agent_count, sizes_of};
ghost use Rattle.md_mech.specs.RowName.{type_names as type_names_at};
ghost use Rattle.md_conditions_text.specs.Names.{agent_names, name_at, outcome_names, profile_names, type_names};

use md_num::NoMemory;
use md_setting::Setting;
use std::alloc::Global;

/// The names of the agents, in their order.
pub(crate) fn agent_names(alloc: Global, setting: &Setting) -> Result<Vec<&str>, NoMemory>
    ensures { IfOk result (λ names. map (λ name. name.now) names.items ≡ agent_names setting.now) }
{
    let mut names = Vec::new(alloc);
    for agent in 0..setting.space().agents() {
        names.push(setting.agent_name(agent))?;
    }
    Ok(names)
}

/// The names of the types of an agent, in their order.
pub(crate) fn type_names(alloc: Global, setting: &Setting, agent: u8) -> Result<Vec<&str>, NoMemory>
    requires { agent < agent_count setting.now }
    ensures { IfOk result (λ names. map (λ name. name.now) names.items ≡ type_names setting.now agent) }
{
    let mut names = Vec::new(alloc);
    for kind in 0..setting.space().types(agent) {
        names.push(setting.type_name(agent, kind))?;
    }
    Ok(names)
}

/// The names of the outcomes, in their order.
pub(crate) fn outcome_names(alloc: Global, setting: &Setting) -> Result<Vec<&str>, NoMemory>
    ensures { IfOk result (λ names. map (λ name. name.now) names.items ≡ outcome_names setting.now) }
{
    let mut names = Vec::new(alloc);
    for outcome in 0..setting.outcomes() {
        names.push(setting.outcome_name(outcome))?;
    }
    Ok(names)
}

// The name of the type that the profile of a rank gives to an agent.
fn type_at(setting: &Setting, rank: u32, agent: u8) -> &str
    requires rank_in { rank < profile_count (sizes_of setting.now) }
    requires agent_in { agent < agent_count setting.now }
    ensures { result.now ≡ slice_index_or (type_names_at (setting.now).agents (profile_at (sizes_of setting.now) rank)) agent [] }
{
    setting.type_name(agent, setting.space().report(rank, agent))
}

// A plus and a name.
fn push_type(name: &mut String, text: &str) -> Result<(), NoMemory>
    ensures { OnOk result (string_bytes name.new ≡ string_bytes name.old ++ 43 ∷ text.now) }
{
    name.push_str("+")?;
    name.push_str(text)?;
    Ok(())
}

/// The name of the profile of a rank: those of its types, joined by `+`.
pub(crate) fn profile_name(alloc: Global, setting: &Setting, rank: u32) -> Result<String, NoMemory>
    requires { rank < profile_count (sizes_of setting.now) }
    ensures { IfOk result (λ name. string_bytes name ≡ name_at setting.now rank) }
{
    let space = setting.space();
    let mut name = String::from_str(alloc, type_at(setting, rank, 0))?;
    for agent in 1..space.agents() {
        push_type(&mut name, type_at(setting, rank, agent))?;
    }
    Ok(name)
}

/// The names of the profiles, by rank.
pub(crate) fn profile_names(alloc: Global, setting: &Setting) -> Result<Vec<String>, NoMemory>
    ensures { IfOk result (λ names. map string_bytes names.items ≡ profile_names setting.now) }
{
    let mut names = Vec::new(alloc);
    for rank in 0..setting.space().profiles() {
        names.push(profile_name(alloc, setting, rank)?)?;
    }
    Ok(names)
}

/// The texts of some strings.
pub(crate) fn texts_of(alloc: Global, names: &[String]) -> Result<Vec<&str>, NoMemory>
    ensures { IfOk result (λ texts. map (λ text. text.now) texts.items ≡ map string_bytes names.now) }
{
    let mut texts = Vec::new(alloc);
    for name in names {
        texts.push(name.as_str())?;
    }
    Ok(texts)
}
