//! Settings as they are written down, before anything of them is checked.

use crate::{Rational, Truth};

/// An agent as written: its lists run over its types, in one order.
#[derive(Drop)]
pub struct RawAgent {
    /// The agent's name.
    pub name: String,
    /// The names of its types.
    pub types: Vec<String>,
    /// The weight of each type; empty beside a joint prior.
    pub weights: Vec<i64>,
    /// What each type has without taking part.
    pub outside: Vec<i64>,
    /// For each type the utility of each outcome; empty beside `at`.
    pub utility: Vec<Vec<i64>>,
    /// Where the utility depends on the types of all agents: for each profile, by rank, the utility of each outcome.
    pub at: Option<Vec<Vec<i64>>>,
}

/// A setting as written.
#[derive(Drop)]
pub struct RawSetting {
    /// The agents, of which profiles give each one type.
    pub agents: Vec<RawAgent>,
    /// The names of the outcomes.
    pub outcomes: Vec<String>,
    /// A joint prior: the weight of each profile, by rank.
    pub prior: Option<Vec<i64>>,
    /// What each outcome is worth to the designer.
    pub values: Vec<i64>,
    /// The factor of the agents' utilities in the designer's value.
    pub welfare: i64,
    /// The factor of the agents' payments in the objective.
    pub revenue: i64,
    /// The kind of truth.
    pub truth: Truth,
    /// The kind of rationality.
    pub rational: Rational,
    /// Whether agents pay.
    pub payments: bool,
    /// Whether the payments of each profile may not add to less than 0.
    pub no_deficit: bool,
}

/// A group of bidders as written: its lists run over its values, in one order.
#[derive(Drop)]
pub struct RawGroup {
    /// The group's name.
    pub name: String,
    /// How many bidders there are in it.
    pub count: i64,
    /// The values that each of them may have for a unit.
    pub values: Vec<i64>,
    /// The weight of each value.
    pub weights: Vec<i64>,
    /// What a unit that one of them gets is worth to the designer.
    pub worth: i64,
}

/// An auction with groups of bidders as written.
#[derive(Drop)]
pub struct RawGroupedAuction {
    /// The amount of each slot.
    pub slots: Vec<i64>,
    /// The factor of the payments in the objective.
    pub revenue: i64,
    /// The factor of what slots are worth to bidders in the objective.
    pub welfare: i64,
    /// What a unit that nobody gets is worth to the designer.
    pub keep: i64,
    /// The groups, in the order of their bidders.
    pub groups: Vec<RawGroup>,
}
