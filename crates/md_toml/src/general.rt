//! What a document says of a general setting.
ghost use Rattle.std.specs.Prelude.{map, length, pos, string_bytes, option_map, Option, ℤ, ◌≡◌};
ghost use Rattle.toml.specs.View.{view, table_view};
ghost use Rattle.md_setting.specs.Setting.{written_agent, names_of, lists_of, written};
ghost use Rattle.md_toml.specs.Reading.{Gives};
ghost use Rattle.md_toml.specs.Values.{members_of_all, read_each, table_in, integer_in, list_in, defaulted};
ghost use Rattle.md_toml.specs.General.{truth_in, rational_in, demands_of, zeros_for, said_objective, objective_of, weights_of, utility_of, at_of, agent_of, prior_of, general_of};

use crate::document::Version;
use crate::known::{has_at, has_known_keys};
use crate::values::{
    member_at, number_at, read_integers, read_rows, read_table, read_tables, read_text, read_texts,
    read_truth_value, value_at,
};
use crate::{Key, SettingRefusal};
use md_setting::{Rational, RawAgent, RawSetting, Truth};
use std::alloc::Global;
use toml::{Table, Value};

fn read_truth(key: Key, value: &Value) -> Result<Truth, SettingRefusal>
    ensures { Gives (λ truth. truth) result (truth_in key (view value.now)) }
{
    let word = read_text(key, value)?;
    match word.as_str() {
        "dominant" => Ok(Truth::Dominant),
        "bayes" => Ok(Truth::Bayes),
        _ => Err(SettingRefusal::UnknownWord(key)),
    }
}

fn read_rational(key: Key, value: &Value) -> Result<Rational, SettingRefusal>
    ensures { Gives (λ rational. rational) result (rational_in key (view value.now)) }
{
    let word = read_text(key, value)?;
    match word.as_str() {
        "none" => Ok(Rational::None),
        "ex-post" => Ok(Rational::ExPost),
        "interim" => Ok(Rational::Interim),
        _ => Err(SettingRefusal::UnknownWord(key)),
    }
}

// What is demanded of a mechanism.
#[derive(Clone, Copy)]
struct Demands {
    truth: Truth,
    rational: Rational,
    payments: bool,
    no_deficit: bool,
}

fn read_demands(members: &Table) -> Result<Demands, SettingRefusal>
    ensures { Gives (λ demands. demands) result (demands_of (table_view members.now)) }
{
    let truth = read_truth(Key::Truth, value_at(members, Key::Truth)?)?;
    let rational = read_rational(Key::Rational, value_at(members, Key::Rational)?)?;
    let payments = read_truth_value(Key::Payments, value_at(members, Key::Payments)?)?;
    let no_deficit = match member_at(members, Key::NoDeficit) {
        Some(value) => read_truth_value(Key::NoDeficit, value)?,
        None => false,
    };
    Ok(Demands {
        truth,
        rational,
        payments,
        no_deficit,
    })
}

// What the designer maximises.
#[derive(Drop)]
struct Objective {
    welfare: i64,
    revenue: i64,
    values: Vec<i64>,
}

// A list of numbers that may be absent, and is then as many zeros as the other list is long.
fn numbers_at(
    alloc: Global,
    members: &Table,
    key: Key,
    names: &[String],
) -> Result<Vec<i64>, SettingRefusal>
    ensures { Gives (λ numbers. numbers.items) result (defaulted (list_in integer_in) (zeros_for (names_of names.now)) key (table_view members.now)) }
{
    match member_at(members, key) {
        Some(value) => read_integers(alloc, key, value),
        None => Ok(vec![in alloc; 0; names.len()]?),
    }
}

fn read_objective(
    alloc: Global,
    members: &Table,
    outcomes: &[String],
) -> Result<Objective, SettingRefusal>
    ensures { Gives said_objective result (objective_of (names_of outcomes.now) (table_view members.now)) }
{
    let welfare = number_at(members, Key::ObjectiveWelfare, 0)?;
    let revenue = number_at(members, Key::ObjectiveRevenue, 0)?;
    let values = numbers_at(alloc, members, Key::ObjectiveValue, outcomes)?;
    Ok(Objective {
        welfare,
        revenue,
        values,
    })
}

fn read_weights(
    alloc: Global,
    members: &Table,
    prior: &Option<Vec<i64>>,
) -> Result<Vec<i64>, SettingRefusal>
    ensures { Gives (λ weights. weights.items) result (weights_of (option_map (λ weights. weights.items) prior.now) (table_view members.now)) }
{
    match prior {
        Some(_) => Ok(Vec::new(alloc)),
        None => read_integers(
            alloc,
            Key::AgentWeights,
            value_at(members, Key::AgentWeights)?,
        ),
    }
}

// An agent's utilities by its own type, which must stand where there are none that depend on all types.
fn read_utility(alloc: Global, members: &Table, at: bool) -> Result<Vec<Vec<i64>>, SettingRefusal>
    ensures { Gives (λ rows. lists_of rows.items) result (utility_of at (table_view members.now)) }
{
    if at && member_at(members, Key::AgentUtility).is_none() {
        return Ok(Vec::new(alloc));
    }
    read_rows(
        alloc,
        Key::AgentUtility,
        value_at(members, Key::AgentUtility)?,
    )
}

// Its utilities where they depend on all types.
fn read_at(
    alloc: Global,
    members: &Table,
    at: bool,
) -> Result<Option<Vec<Vec<i64>>>, SettingRefusal>
    ensures { Gives (option_map (λ rows. lists_of rows.items)) result (at_of at (table_view members.now)) }
{
    if !at {
        return Ok(None);
    }
    let rows = read_rows(
        alloc,
        Key::AgentUtilityAt,
        value_at(members, Key::AgentUtilityAt)?,
    )?;
    Ok(Some(rows))
}

fn read_agent(
    alloc: Global,
    version: Version,
    members: &Table,
    prior: &Option<Vec<i64>>,
) -> Result<RawAgent, SettingRefusal>
    ensures { Gives written_agent result (agent_of version (option_map (λ weights. weights.items) prior.now) (table_view members.now)) }
{
    let name = read_text(Key::AgentName, value_at(members, Key::AgentName)?)?;
    let types = read_texts(alloc, Key::AgentTypes, value_at(members, Key::AgentTypes)?)?;
    let weights = read_weights(alloc, members, prior)?;
    let outside = numbers_at(alloc, members, Key::AgentOutside, &types)?;
    let depends = has_at(members, version);
    let utility = read_utility(alloc, members, depends)?;
    let at = read_at(alloc, members, depends)?;
    Ok(RawAgent {
        name,
        types,
        weights,
        outside,
        utility,
        at,
    })
}

fn read_prior(alloc: Global, members: &Table) -> Result<Option<Vec<i64>>, SettingRefusal>
    ensures { Gives (option_map (λ weights. weights.items)) result (prior_of (table_view members.now)) }
{
    match member_at(members, Key::Prior) {
        Some(value) => Ok(Some(read_integers(alloc, Key::Prior, value)?)),
        None => Ok(None),
    }
}

fn read_agents(
    alloc: Global,
    version: Version,
    tables: &[&Table],
    prior: &Option<Vec<i64>>,
) -> Result<Vec<RawAgent>, SettingRefusal>
    ensures { Gives (λ agents. map written_agent agents.items) result (read_each (agent_of version (option_map (λ weights. weights.items) prior.now)) (members_of_all tables.now)) }
{
    let mut agents = Vec::new(alloc);
    for members in tables {
        agents.push(read_agent(alloc, version, members, prior)?)?;
    }
    Ok(agents)
}

// The table of a key that may be absent, and is then the one given.
fn table_at<'a>(
    members: &'a Table,
    key: Key,
    absent: &'a Table,
) -> Result<&'a Table, SettingRefusal>
    ensures { Gives (λ inner. table_view inner.now) result (defaulted table_in (table_view absent.now) key (table_view members.now)) }
{
    match member_at(members, key) {
        Some(value) => read_table(key, value),
        None => Ok(absent),
    }
}

pub(crate) fn read_general(
    alloc: Global,
    members: &Table,
    version: Version,
) -> Result<RawSetting, SettingRefusal>
    ensures { Gives written result (general_of version (table_view members.now)) }
{
    let demands = read_demands(members)?;
    let outcomes = read_texts(alloc, Key::Outcomes, value_at(members, Key::Outcomes)?)?;
    let empty = Table::new(alloc);
    let objective_members = table_at(members, Key::Objective, &empty)?;
    let objective = read_objective(alloc, objective_members, &outcomes)?;
    let prior = read_prior(alloc, members)?;
    let tables = read_tables(alloc, Key::Agent, value_at(members, Key::Agent)?)?;
    let agents = read_agents(alloc, version, &tables, &prior)?;
    if !has_known_keys(
        version,
        members,
        objective_members,
        &tables,
        prior.is_some(),
    ) {
        return Err(SettingRefusal::UnknownKey);
    }
    Ok(RawSetting {
        agents,
        outcomes,
        prior,
        values: objective.values,
        welfare: objective.welfare,
        revenue: objective.revenue,
        truth: demands.truth,
        rational: demands.rational,
        payments: demands.payments,
        no_deficit: demands.no_deficit,
    })
}
