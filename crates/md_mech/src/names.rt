//! The names of rows.
ghost use Rattle.std.specs.Prelude.{◌≡◌, ◌<◌, ◌∷◌, ◌++◌, [], length, slice_get, slice_index, IfOk, OnOk};
ghost use Rattle.std.specs.Option.{ForSome};
ghost use Rattle.md_space.specs.Profiles.{profile_count, profile_at, IsProfile};
ghost use Rattle.md_setting.specs.Meaning.{agent_count, sizes_of};
ghost use Rattle.md_mech.specs.Rows.{conditions_of};
ghost use Rattle.md_mech.specs.Conditions.{named, IsInside};
ghost use Rattle.md_mech.specs.RowName.{agent_name, type_name, profile_name, name_of};

use crate::condition::{Condition, condition_at};
use md_num::NoMemory;
use md_setting::Setting;
use std::alloc::Global;

/// The name of a row of the setting's linear program: the kind of the condition, then the agent, types, report
/// and profile that it speaks of, joined by slashes.
pub fn row_name(alloc: Global, setting: &Setting, row: u32) -> Result<Vec<u8>, NoMemory>
    requires { row < length (conditions_of setting.now) }
    ensures { IfOk result (λ name. ForSome (slice_get (conditions_of setting.now) row) (λ r. name.items ≡ name_of setting.now r)) }
{
    name(alloc, setting, condition_at(setting, row))
}

fn name(alloc: Global, setting: &Setting, condition: Condition) -> Result<Vec<u8>, NoMemory>
    requires { IsInside setting.now condition }
    ensures { IfOk result (λ name. name.items ≡ name_of setting.now (named setting.now condition)) }
{
    match condition {
        Condition::Dominant {
            agent,
            rank,
            report,
        } => dominant_name(alloc, setting, agent, rank, report),
        Condition::Bayes {
            agent,
            kind,
            report,
        } => bayes_name(alloc, setting, agent, kind, report),
        Condition::ExPost { agent, rank } => ex_post_name(alloc, setting, agent, rank),
        Condition::Interim { agent, kind } => interim_name(alloc, setting, agent, kind),
        Condition::Deficit { rank } => at_profile(alloc, setting, "deficit", rank),
        Condition::Profile { rank } => at_profile(alloc, setting, "profile", rank),
    }
}

fn dominant_name(
    alloc: Global,
    setting: &Setting,
    agent: u8,
    rank: u32,
    report: u8,
) -> Result<Vec<u8>, NoMemory>
    requires { IsInside setting.now (Condition.Dominant agent rank report) }
    ensures { IfOk result (λ name. name.items ≡ name_of setting.now (named setting.now (Condition.Dominant agent rank report))) }
{
    let kind = setting.space().report(rank, agent);
    let mut name = Vec::from_slice(alloc, b"truth")?;
    push_word(&mut name, setting.agent_name(agent))?;
    push_word(&mut name, setting.type_name(agent, kind))?;
    push_word(&mut name, setting.type_name(agent, report))?;
    push_profile(&mut name, setting, rank)?;
    Ok(name)
}

fn bayes_name(
    alloc: Global,
    setting: &Setting,
    agent: u8,
    kind: u8,
    report: u8,
) -> Result<Vec<u8>, NoMemory>
    requires { IsInside setting.now (Condition.Bayes agent kind report) }
    ensures { IfOk result (λ name. name.items ≡ name_of setting.now (named setting.now (Condition.Bayes agent kind report))) }
{
    let mut name = Vec::from_slice(alloc, b"truth")?;
    push_word(&mut name, setting.agent_name(agent))?;
    push_word(&mut name, setting.type_name(agent, kind))?;
    push_word(&mut name, setting.type_name(agent, report))?;
    Ok(name)
}

fn ex_post_name(alloc: Global, setting: &Setting, agent: u8, rank: u32) -> Result<Vec<u8>, NoMemory>
    requires { IsInside setting.now (Condition.ExPost agent rank) }
    ensures { IfOk result (λ name. name.items ≡ name_of setting.now (named setting.now (Condition.ExPost agent rank))) }
{
    let mut name = Vec::from_slice(alloc, b"rational")?;
    push_word(&mut name, setting.agent_name(agent))?;
    push_profile(&mut name, setting, rank)?;
    Ok(name)
}

fn interim_name(alloc: Global, setting: &Setting, agent: u8, kind: u8) -> Result<Vec<u8>, NoMemory>
    requires { IsInside setting.now (Condition.Interim agent kind) }
    ensures { IfOk result (λ name. name.items ≡ name_of setting.now (named setting.now (Condition.Interim agent kind))) }
{
    let mut name = Vec::from_slice(alloc, b"rational")?;
    push_word(&mut name, setting.agent_name(agent))?;
    push_word(&mut name, setting.type_name(agent, kind))?;
    Ok(name)
}

fn at_profile(alloc: Global, setting: &Setting, word: &str, rank: u32) -> Result<Vec<u8>, NoMemory>
    requires { rank < profile_count (sizes_of setting.now) }
    ensures { IfOk result (λ name. name.items ≡ word.now ++ 47 ∷ profile_name setting.now (profile_at (sizes_of setting.now) rank)) }
{
    let mut name = Vec::from_slice(alloc, word.as_bytes())?;
    push_profile(&mut name, setting, rank)?;
    Ok(name)
}

// A slash and a word.
fn push_word(name: &mut Vec<u8>, word: &str) -> Result<(), NoMemory>
    ensures { OnOk result (name.new.items ≡ name.old.items ++ 47 ∷ word.now) }
{
    name.push(b'/')?;
    name.extend_from_slice(word.as_bytes())?;
    Ok(())
}

// A slash and the names of a profile's types.
fn push_profile(name: &mut Vec<u8>, setting: &Setting, rank: u32) -> Result<(), NoMemory>
    requires { rank < profile_count (sizes_of setting.now) }
    ensures { OnOk result (name.new.items ≡ name.old.items ++ 47 ∷ profile_name setting.now (profile_at (sizes_of setting.now) rank)) }
{
    let space = setting.space();
    name.push(b'/')?;
    name.extend_from_slice(setting.type_name(0, space.report(rank, 0)).as_bytes())?;
    for agent in 1..space.agents() {
        name.push(b'+')?;
        name.extend_from_slice(
            setting
                .type_name(agent, space.report(rank, agent))
                .as_bytes(),
        )?;
    }
    Ok(())
}
