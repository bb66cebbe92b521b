//! Which keys a table may have.
ghost use Rattle.std.specs.Prelude.{◌≡◌, is_some};
ghost use Rattle.std.specs.List.{list_all};
ghost use Rattle.toml.specs.Data.{get_member};
ghost use Rattle.toml.specs.View.{table_view};
ghost use Rattle.md_toml.specs.Keys.{member_name};
ghost use Rattle.md_toml.specs.Known.{agent_keys, auction_keys, has_agent_keys, has_at, has_only, has_known_keys, has_grouped_keys, is_among};
ghost use Rattle.md_toml.specs.Values.{members_of_all};

use crate::Key;
use crate::document::Version;
use crate::values::member_at;
use toml::Table;

// The keys that the top table of a general setting may have.
const GENERAL_KEYS: [Key; 11] = [
    Key::Format,
    Key::Version,
    Key::Kind,
    Key::Truth,
    Key::Rational,
    Key::Payments,
    Key::NoDeficit,
    Key::Outcomes,
    Key::Objective,
    Key::Prior,
    Key::Agent,
];

// The keys that the table of the objective may have.
const OBJECTIVE_KEYS: [Key; 3] = [
    Key::ObjectiveWelfare,
    Key::ObjectiveRevenue,
    Key::ObjectiveValue,
];

// The keys that an agent's table may have, the first only where there is no joint prior.
const AGENT_KEYS: [Key; 5] = [
    Key::AgentWeights,
    Key::AgentName,
    Key::AgentTypes,
    Key::AgentOutside,
    Key::AgentUtility,
];

// The same where its utility depends on the types of all agents.
const AGENT_AT_KEYS: [Key; 5] = [
    Key::AgentWeights,
    Key::AgentName,
    Key::AgentTypes,
    Key::AgentOutside,
    Key::AgentUtilityAt,
];

// The keys that the table of an auction may have.
const AUCTION_KEYS: [Key; 9] = [
    Key::Format,
    Key::Version,
    Key::Kind,
    Key::Bidders,
    Key::Values,
    Key::Weights,
    Key::Revenue,
    Key::Welfare,
    Key::Keep,
];

// The keys that the top table of an auction with groups of bidders may have.
const GROUPED_KEYS: [Key; 8] = [
    Key::Format,
    Key::Version,
    Key::Kind,
    Key::Slots,
    Key::Revenue,
    Key::Welfare,
    Key::Keep,
    Key::Bidder,
];

// The keys that the table of a group of bidders may have.
const GROUP_KEYS: [Key; 5] = [
    Key::BidderName,
    Key::BidderCount,
    Key::BidderValues,
    Key::BidderWeights,
    Key::BidderWorth,
];

// Whether a name is that of one of the keys.
fn is_among(keys: &[Key], name: &str) -> bool
    ensures { result ≡ is_among keys.now name.now }
{
    keys.iter().any(|key| key.member() == name)
}

// Whether a table has no other keys than these.
#[tactic(auto, using(crate::proofs::Names::names_of_tables))]
fn has_only(table: &Table, keys: &[Key]) -> bool
    ensures { result ≡ has_only keys.now (table_view table.now) }
{
    for name in table.keys() {
        if !is_among(keys, name.as_str()) {
            return false;
        }
    }
    true
}

/// Whether an agent's table says that its utility depends on the types of all agents.
pub(crate) fn has_at(table: &Table, version: Version) -> bool
    ensures { result ≡ has_at version (table_view table.now) }
{
    match version {
        Version::One => false,
        Version::Two => stands(table, Key::AgentUtilityAt),
    }
}

// Whether a key stands in a table.
fn stands(table: &Table, key: Key) -> bool
    ensures { result ≡ is_some (get_member (member_name key) (table_view table.now)) }
{
    member_at(table, key).is_some()
}

fn agent_keys(has_prior: bool, at: bool) -> &'static [Key]
    ensures { result.now ≡ agent_keys has_prior at }
{
    match (has_prior, at) {
        (true, true) => &AGENT_AT_KEYS[1..],
        (true, false) => &AGENT_KEYS[1..],
        (false, true) => &AGENT_AT_KEYS[..],
        (false, false) => &AGENT_KEYS[..],
    }
}

// Whether an agent's table has only the keys that it may have.
fn has_agent_keys(table: &Table, version: Version, has_prior: bool) -> bool
    ensures { result ≡ has_agent_keys version has_prior (table_view table.now) }
{
    has_only(table, agent_keys(has_prior, has_at(table, version)))
}

// The same of each agent's.
fn have_agent_keys(tables: &[&Table], version: Version, has_prior: bool) -> bool
    ensures { result ≡ list_all (has_agent_keys version has_prior) (members_of_all tables.now) }
{
    for table in tables {
        if !has_agent_keys(table, version, has_prior) {
            return false;
        }
    }
    true
}

/// Whether all tables of a general setting have only keys that they may have.
pub(crate) fn has_known_keys(
    version: Version,
    members: &Table,
    objective: &Table,
    agents: &[&Table],
    has_prior: bool,
) -> bool
    ensures { result ≡ has_known_keys version (table_view members.now) (table_view objective.now) (members_of_all agents.now) has_prior }
{
    has_only(members, &GENERAL_KEYS)
        && has_only(objective, &OBJECTIVE_KEYS)
        && have_agent_keys(agents, version, has_prior)
}

/// Whether the table of an auction has only keys that it may have.
pub(crate) fn has_auction_keys(members: &Table) -> bool
    ensures { result ≡ has_only auction_keys (table_view members.now) }
{
    has_only(members, &AUCTION_KEYS)
}

/// Whether all tables of an auction with groups of bidders have only keys that they may have.
pub(crate) fn has_grouped_keys(members: &Table, groups: &[&Table]) -> bool
    ensures { result ≡ has_grouped_keys (table_view members.now) (members_of_all groups.now) }
{
    has_only(members, &GROUPED_KEYS) && have_only(groups, &GROUP_KEYS)
}

// Whether each table has no other keys than these.
fn have_only(tables: &[&Table], keys: &[Key]) -> bool
    ensures { result ≡ list_all (has_only keys.now) (members_of_all tables.now) }
{
    for table in tables {
        if !has_only(table, keys) {
            return false;
        }
    }
    true
}
