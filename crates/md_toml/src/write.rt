//! The document that a setting is printed as.
ghost use Rattle.std.specs.Prelude.{◌≡◌, IfOk, OnOk, map, option_map, is_some, ℤ, pos, string_bytes};
ghost use Rattle.std.specs.List.{list_any};
ghost use Rattle.toml.specs.Data.{no_members, table};
ghost use Rattle.toml.specs.View.{view, table_view};
ghost use Rattle.md_setting.specs.Setting.{written_agent, written, names_of, lists_of};
ghost use Rattle.md_setting.specs.Grouped.{written_group, written_grouped};
ghost use Rattle.md_toml.specs.Writing.{put, version_number, version_of, header_with, with_demands, objective_table, with_weights, with_utilities, agent_table, agents_data, with_prior, general_table, auction_table, group_table, groups_data, grouped_table, file_table, IsAccepted, numbers_data, texts_data, rows_data, truth_word, rational_word};

use crate::Key;
use crate::document::Version;
use crate::print::{put, put_integer, put_numbers, put_rows, put_text, put_texts, sizes_value};
use md_num::NoMemory;
use md_setting::{
    Auction, Rational, RawAgent, RawGroup, RawGroupedAuction, RawSetting, Setting, SettingFile,
    Truth,
};
use std::alloc::Global;
use toml::{Table, Value};

fn truth_word(truth: Truth) -> &'static str
    ensures { result.now ≡ truth_word truth }
{
    match truth {
        Truth::Dominant => "dominant",
        Truth::Bayes => "bayes",
    }
}

fn rational_word(rational: Rational) -> &'static str
    ensures { result.now ≡ rational_word rational }
{
    match rational {
        Rational::None => "none",
        Rational::ExPost => "ex-post",
        Rational::Interim => "interim",
    }
}

fn version_number(version: Version) -> i64
    ensures { result ≡ version_number version }
{
    match version {
        Version::One => 1,
        Version::Two => 2,
    }
}

// Whether the utility of an agent depends on all types.
fn depends_on_all(agent: &RawAgent) -> bool
    ensures { result ≡ is_some (written_agent agent.now).at }
{
    match agent.at {
        Some(_) => true,
        None => false,
    }
}

fn any_depends_on_all(agents: &[RawAgent]) -> bool
    ensures { result ≡ list_any (λ agent. is_some (written_agent agent).at) agents.now }
{
    agents.iter().any(|agent| depends_on_all(agent))
}

// The version that a setting is written in.
#[tactic(auto, using(crate::proofs::VersionLaws::any_written))]
fn version_of(agents: &[RawAgent]) -> Version
    ensures { result ≡ version_of (map written_agent agents.now) }
{
    if any_depends_on_all(agents) {
        Version::Two
    } else {
        Version::One
    }
}

// The first keys, with the number of the version and the word for the kind.
fn header_table(alloc: Global, version: i64, kind: &str) -> Result<Table, NoMemory>
    ensures { IfOk result (λ members. table_view members ≡ header_with version kind.now) }
{
    let mut members = Table::new(alloc);
    put_text(alloc, &mut members, Key::Format, "mechanism-setting")?;
    put_integer(alloc, &mut members, Key::Version, version)?;
    put_text(alloc, &mut members, Key::Kind, kind)?;
    Ok(members)
}

fn put_demands(alloc: Global, members: &mut Table, raw: &RawSetting) -> Result<(), NoMemory>
    ensures { OnOk result (table_view members.new ≡ with_demands raw.now.truth raw.now.rational raw.now.payments raw.now.no_deficit (table_view members.old)) }
{
    put_text(alloc, members, Key::Truth, truth_word(raw.truth))?;
    put_text(alloc, members, Key::Rational, rational_word(raw.rational))?;
    put(alloc, members, Key::Payments, Value::Boolean(raw.payments))?;
    put(
        alloc,
        members,
        Key::NoDeficit,
        Value::Boolean(raw.no_deficit),
    )?;
    Ok(())
}

fn objective_table(alloc: Global, raw: &RawSetting) -> Result<Table, NoMemory>
    ensures { IfOk result (λ members. table_view members ≡ objective_table raw.now.welfare raw.now.revenue raw.now.values.items) }
{
    let mut members = Table::new(alloc);
    put_integer(alloc, &mut members, Key::ObjectiveWelfare, raw.welfare)?;
    put_integer(alloc, &mut members, Key::ObjectiveRevenue, raw.revenue)?;
    put_numbers(alloc, &mut members, Key::ObjectiveValue, &raw.values)?;
    Ok(members)
}

// Weights stand where there is no joint prior.
fn put_weights(
    alloc: Global,
    members: &mut Table,
    prior: &Option<Vec<i64>>,
    weights: &[i64],
) -> Result<(), NoMemory>
    ensures { OnOk result (table_view members.new ≡ with_weights (option_map (λ weights. weights.items) prior.now) weights.now (table_view members.old)) }
{
    match prior {
        Some(_) => Ok(()),
        None => put_numbers(alloc, members, Key::AgentWeights, weights),
    }
}

// Utilities stand by the agent's own type, or by the types of all agents.
fn put_utilities(
    alloc: Global,
    members: &mut Table,
    at: &Option<Vec<Vec<i64>>>,
    utility: &[Vec<i64>],
) -> Result<(), NoMemory>
    ensures { OnOk result (table_view members.new ≡ with_utilities (option_map (λ rows. lists_of rows.items) at.now) (lists_of utility.now) (table_view members.old)) }
{
    match at {
        Some(rows) => put_rows(alloc, members, Key::AgentUtilityAt, rows),
        None => put_rows(alloc, members, Key::AgentUtility, utility),
    }
}

fn agent_table(alloc: Global, prior: &Option<Vec<i64>>, agent: &RawAgent) -> Result<Table, NoMemory>
    ensures { IfOk result (λ members. table_view members ≡ agent_table (option_map (λ weights. weights.items) prior.now) (written_agent agent.now)) }
{
    let mut members = Table::new(alloc);
    put_text(alloc, &mut members, Key::AgentName, agent.name.as_str())?;
    put_texts(alloc, &mut members, Key::AgentTypes, &agent.types)?;
    put_weights(alloc, &mut members, prior, &agent.weights)?;
    put_numbers(alloc, &mut members, Key::AgentOutside, &agent.outside)?;
    put_utilities(alloc, &mut members, &agent.at, &agent.utility)?;
    Ok(members)
}

fn agents_value(
    alloc: Global,
    prior: &Option<Vec<i64>>,
    agents: &[RawAgent],
) -> Result<Value, NoMemory>
    ensures { IfOk result (λ value. view value ≡ agents_data (option_map (λ weights. weights.items) prior.now) (map written_agent agents.now)) }
{
    let mut tables = Vec::new(alloc);
    for agent in agents {
        tables.push(Value::Table(agent_table(alloc, prior, agent)?))?;
    }
    Ok(Value::Array(tables))
}

fn put_prior(alloc: Global, members: &mut Table, prior: &Option<Vec<i64>>) -> Result<(), NoMemory>
    ensures { OnOk result (table_view members.new ≡ with_prior (option_map (λ weights. weights.items) prior.now) (table_view members.old)) }
{
    match prior {
        Some(weights) => put_numbers(alloc, members, Key::Prior, weights),
        None => Ok(()),
    }
}

fn general_table(alloc: Global, raw: &RawSetting) -> Result<Table, NoMemory>
    ensures { IfOk result (λ members. table_view members ≡ general_table (written raw.now)) }
{
    let version = version_number(version_of(&raw.agents));
    let mut members = header_table(alloc, version, "general")?;
    put_demands(alloc, &mut members, raw)?;
    put_texts(alloc, &mut members, Key::Outcomes, &raw.outcomes)?;
    put(
        alloc,
        &mut members,
        Key::Objective,
        Value::Table(objective_table(alloc, raw)?),
    )?;
    put_prior(alloc, &mut members, &raw.prior)?;
    put(
        alloc,
        &mut members,
        Key::Agent,
        agents_value(alloc, &raw.prior, &raw.agents)?,
    )?;
    Ok(members)
}

fn auction_table(alloc: Global, auction: &Auction, values: &[i64]) -> Result<Table, NoMemory>
    requires { values.now ≡ auction.now.values }
    ensures { IfOk result (λ members. table_view members ≡ auction_table auction.now) }
{
    let mut members = header_table(alloc, 1, "auction")?;
    put_integer(
        alloc,
        &mut members,
        Key::Bidders,
        i64::from(auction.bidders()),
    )?;
    put_numbers(alloc, &mut members, Key::Values, values)?;
    put(
        alloc,
        &mut members,
        Key::Weights,
        sizes_value(alloc, auction.weights())?,
    )?;
    put_integer(alloc, &mut members, Key::Revenue, auction.revenue())?;
    put_integer(alloc, &mut members, Key::Welfare, auction.welfare())?;
    put_integer(alloc, &mut members, Key::Keep, auction.keep())?;
    Ok(members)
}

fn group_table(alloc: Global, group: &RawGroup) -> Result<Table, NoMemory>
    ensures { IfOk result (λ members. table_view members ≡ group_table (written_group group.now)) }
{
    let mut members = Table::new(alloc);
    put_text(alloc, &mut members, Key::BidderName, group.name.as_str())?;
    put_integer(alloc, &mut members, Key::BidderCount, group.count)?;
    put_numbers(alloc, &mut members, Key::BidderValues, &group.values)?;
    put_numbers(alloc, &mut members, Key::BidderWeights, &group.weights)?;
    put_integer(alloc, &mut members, Key::BidderWorth, group.worth)?;
    Ok(members)
}

fn groups_value(alloc: Global, groups: &[RawGroup]) -> Result<Value, NoMemory>
    ensures { IfOk result (λ value. view value ≡ groups_data (map written_group groups.now)) }
{
    let mut tables = Vec::new(alloc);
    for group in groups {
        tables.push(Value::Table(group_table(alloc, group)?))?;
    }
    Ok(Value::Array(tables))
}

fn grouped_table(alloc: Global, raw: &RawGroupedAuction) -> Result<Table, NoMemory>
    ensures { IfOk result (λ members. table_view members ≡ grouped_table (written_grouped raw.now)) }
{
    let mut members = header_table(alloc, 3, "bidders")?;
    put_numbers(alloc, &mut members, Key::Slots, &raw.slots)?;
    put_integer(alloc, &mut members, Key::Revenue, raw.revenue)?;
    put_integer(alloc, &mut members, Key::Welfare, raw.welfare)?;
    put_integer(alloc, &mut members, Key::Keep, raw.keep)?;
    put(
        alloc,
        &mut members,
        Key::Bidder,
        groups_value(alloc, &raw.groups)?,
    )?;
    Ok(members)
}

/// The document of a setting.
pub(crate) fn file_table(alloc: Global, file: &SettingFile) -> Result<Table, NoMemory>
    ensures members { IfOk result (λ members. table_view members ≡ file_table file.now) }
    ensures accepted { IsAccepted file.now }
{
    match file {
        SettingFile::General(setting) => general_table(alloc, setting.as_written()),
        SettingFile::Auction(auction) => { auction_table(alloc, auction, auction.values()) }
        SettingFile::Bidders(auction) => grouped_table(alloc, auction.as_written()),
    }
}
