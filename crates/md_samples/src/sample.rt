//! Agents in plain words and numbers, and settings of such agents.

use crate::lists::{rows, words};
use md_setting::{Rational, RawAgent, RawSetting, Truth};
use std::alloc::{AllocError, Global};

/// An agent in plain words and numbers: its lists run over its types, in one order.
#[derive(Clone, Copy)]
pub struct SampleAgent<'a> {
    /// The agent's name.
    pub name: &'a str,
    /// The names of its types.
    pub types: &'a [&'a str],
    /// The weight of each type; empty beside a joint prior.
    pub weights: &'a [i64],
    /// What each type has without taking part.
    pub outside: &'a [i64],
    /// What each outcome is worth to each type.
    pub utility: &'a [&'a [i64]],
}

/// A setting of these agents, outcomes and values, with no prior: truth is dominant, no agent loses ex post by taking part,
/// agents pay, a deficit is allowed, and beside the values the designer wants the payments alone.
pub fn setting(
    alloc: Global,
    agents: &[SampleAgent<'_>],
    outcomes: &[&str],
    values: &[i64],
) -> Result<RawSetting, AllocError> {
    Ok(RawSetting {
        agents: raw_agents(alloc, agents)?,
        outcomes: words(alloc, outcomes)?,
        prior: None,
        values: Vec::from_slice(alloc, values)?,
        welfare: 0,
        revenue: 1,
        truth: Truth::Dominant,
        rational: Rational::ExPost,
        payments: true,
        no_deficit: false,
    })
}

fn raw_agents(alloc: Global, agents: &[SampleAgent<'_>]) -> Result<Vec<RawAgent>, AllocError> {
    let mut raw = Vec::new(alloc);
    for agent in agents {
        raw.push(raw_agent(alloc, agent)?)?;
    }
    Ok(raw)
}

fn raw_agent(alloc: Global, agent: &SampleAgent<'_>) -> Result<RawAgent, AllocError> {
    Ok(RawAgent {
        name: String::from_str(alloc, agent.name)?,
        types: words(alloc, agent.types)?,
        weights: Vec::from_slice(alloc, agent.weights)?,
        outside: Vec::from_slice(alloc, agent.outside)?,
        utility: rows(alloc, agent.utility)?,
        at: None,
    })
}
