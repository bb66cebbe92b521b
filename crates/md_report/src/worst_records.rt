//! The records of what is missed by most, and of what is paid least.
ghost use Rattle.std.specs.Prelude.{◌≡◌, ◌<◌, ◌++◌, IfOk, OnOk, IfSome};
ghost use Rattle.std.specs.List.{All};
ghost use Rattle.md_space.specs.Profiles.{profile_count};
ghost use Rattle.md_setting.specs.Meaning.{sizes_of};
ghost use Rattle.md_mech.specs.Conditions.{named, IsInside};
ghost use Rattle.md_report.specs.Records.{worst_head, worst_record, told_records, worst_records, deficit_record, deficit_records, fraction};
ghost use Rattle.md_report.specs.Tellable.{IsTold};

use crate::deficit::Deficit;
use crate::names::profile_name;
use crate::worst::Worst;
use md_mech::Condition;
use md_num::{Frac, NoMemory};
use md_records::Row;
use md_setting::Setting;
use std::alloc::Global;

/// Adds the records of the worst conditions of agents.
pub(crate) fn push_worst(
    alloc: Global,
    rows: &mut Vec<Row>,
    setting: &Setting,
    told: &[Option<Worst>],
) -> Result<(), NoMemory>
    requires { All (IsTold setting.now) told.now }
    ensures { OnOk result (rows.new.items ≡ rows.old.items ++ worst_records setting.now told.now) }
{
    for worst in told {
        push_told(alloc, rows, setting, worst)?;
    }
    Ok(())
}

// That of one agent, if there is one.
fn push_told(
    alloc: Global,
    rows: &mut Vec<Row>,
    setting: &Setting,
    told: &Option<Worst>,
) -> Result<(), NoMemory>
    requires { IsTold setting.now told.now }
    ensures { OnOk result (rows.new.items ≡ rows.old.items ++ told_records setting.now told.now) }
{
    if let Some(worst) = told {
        rows.push(worst_record(alloc, setting, worst)?)?;
    }
    Ok(())
}

/// Adds the record of the profile at which least is paid, if it is told.
pub(crate) fn push_deficit(
    alloc: Global,
    rows: &mut Vec<Row>,
    setting: &Setting,
    told: &Option<Deficit>,
) -> Result<(), NoMemory>
    requires { IfSome told.now (λ deficit. deficit.rank < profile_count (sizes_of setting.now)) }
    ensures { OnOk result (rows.new.items ≡ rows.old.items ++ deficit_records setting.now told.now) }
{
    if let Some(deficit) = told {
        rows.push(deficit_record(alloc, setting, deficit)?)?;
    }
    Ok(())
}

fn deficit_record(alloc: Global, setting: &Setting, told: &Deficit) -> Result<Row, NoMemory>
    requires { told.now.rank < profile_count (sizes_of setting.now) }
    ensures { IfOk result (λ row. row ≡ deficit_record setting.now told.now) }
{
    let name = profile_name(alloc, setting, told.rank)?;
    let head = Row::new(alloc).with(b"deficit")?.with(&name)?;
    with_fraction(head, told.payments)
}

fn worst_record(alloc: Global, setting: &Setting, worst: &Worst) -> Result<Row, NoMemory>
    requires { IsInside setting.now worst.now.condition }
    ensures { IfOk result (λ row. row ≡ worst_record setting.now worst.now) }
{
    let head = head(alloc, setting, worst.condition)?;
    with_fraction(head, worst.shortfall)
}

/// A record with the numbers of a fraction at its end.
pub fn with_fraction(fields: Row, value: Frac) -> Result<Row, NoMemory>
    ensures { IfOk result (λ row. row ≡ fields ++ fraction value) }
{
    let begun = fields.with_number(value.num)?;
    let whole = begun.with_number(value.den)?;
    Ok(whole)
}

// Which condition it is.
fn head(alloc: Global, setting: &Setting, condition: Condition) -> Result<Row, NoMemory>
    requires { IsInside setting.now condition }
    ensures { IfOk result (λ row. row ≡ worst_head setting.now (named setting.now condition)) }
{
    match condition {
        Condition::Dominant {
            agent,
            rank,
            report,
        } => dominant_head(alloc, setting, agent, rank, report),
        Condition::Bayes {
            agent,
            kind,
            report,
        } => bayes_head(alloc, setting, agent, kind, report),
        Condition::ExPost { agent, rank } => ex_post_head(alloc, setting, agent, rank),
        Condition::Interim { agent, kind } => interim_head(alloc, setting, agent, kind),
        Condition::Deficit { rank: _ } | Condition::Profile { rank: _ } => Ok(Row::new(alloc)),
    }
}

fn dominant_head(
    alloc: Global,
    setting: &Setting,
    agent: u8,
    rank: u32,
    report: u8,
) -> Result<Row, NoMemory>
    requires { IsInside setting.now (Condition.Dominant agent rank report) }
    ensures { IfOk result (λ row. row ≡ worst_head setting.now (named setting.now (Condition.Dominant agent rank report))) }
{
    let kind = setting.space().report(rank, agent);
    let name = profile_name(alloc, setting, rank)?;
    Row::new(alloc)
        .with(b"gain")?
        .with(setting.agent_name(agent).as_bytes())?
        .with(setting.type_name(agent, kind).as_bytes())?
        .with(setting.type_name(agent, report).as_bytes())?
        .with(&name)
}

fn bayes_head(
    alloc: Global,
    setting: &Setting,
    agent: u8,
    kind: u8,
    report: u8,
) -> Result<Row, NoMemory>
    requires { IsInside setting.now (Condition.Bayes agent kind report) }
    ensures { IfOk result (λ row. row ≡ worst_head setting.now (named setting.now (Condition.Bayes agent kind report))) }
{
    Row::new(alloc)
        .with(b"gain")?
        .with(setting.agent_name(agent).as_bytes())?
        .with(setting.type_name(agent, kind).as_bytes())?
        .with(setting.type_name(agent, report).as_bytes())
}

fn ex_post_head(alloc: Global, setting: &Setting, agent: u8, rank: u32) -> Result<Row, NoMemory>
    requires { IsInside setting.now (Condition.ExPost agent rank) }
    ensures { IfOk result (λ row. row ≡ worst_head setting.now (named setting.now (Condition.ExPost agent rank))) }
{
    let kind = setting.space().report(rank, agent);
    let name = profile_name(alloc, setting, rank)?;
    Row::new(alloc)
        .with(b"loss")?
        .with(setting.agent_name(agent).as_bytes())?
        .with(setting.type_name(agent, kind).as_bytes())?
        .with(&name)
}

fn interim_head(alloc: Global, setting: &Setting, agent: u8, kind: u8) -> Result<Row, NoMemory>
    requires { IsInside setting.now (Condition.Interim agent kind) }
    ensures { IfOk result (λ row. row ≡ worst_head setting.now (named setting.now (Condition.Interim agent kind))) }
{
    Row::new(alloc)
        .with(b"loss")?
        .with(setting.agent_name(agent).as_bytes())?
        .with(setting.type_name(agent, kind).as_bytes())
}
