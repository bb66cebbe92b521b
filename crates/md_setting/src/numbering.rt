//! The names of a setting, numbered in the order of their appearance.
ghost use Rattle.std.specs.Prelude.{◌≡◌, true, map, IfOk};
ghost use Rattle.std.specs.List.{list_all};
ghost use Rattle.md_setting.specs.Setting.{written, written_agent, names_of};
ghost use Rattle.md_setting.specs.Names.{place_of};
ghost use Rattle.md_setting.specs.Kept.{AreNumbered};
ghost use Rattle.md_setting.specs.Refusals.{are_apart, has_own_names};

use crate::{RawAgent, RawSetting};
use indexmap::IndexSet;
use std::alloc::{AllocError, Global};
use std::marker::Model;

/// Some names that are told apart, each numbered by its place.
#[derive(Drop)]
pub(crate) struct Names {
    set: IndexSet<String>,
}

impl Model for Names {
    ghost use Rattle.std.specs.Prelude.{List, ℕ, map, string_bytes};

    ghost Value = { List (List ℕ) };

    ghost view = { λ names. map string_bytes names.set.keys };
}

impl Names {
    /// The number of a name.
    #[tactic(auto, using(crate::proofs::NumberLaws::places))]
    pub(crate) fn place(&self, name: &str) -> Option<usize>
        ensures { result ≡ place_of self.now name.now }
    {
        self.set.get_index_of(name)
    }
}

/// The numbers of the names of a setting: of its agents, of its outcomes, and of each agent's types.
#[derive(Drop)]
pub(crate) struct Numbering {
    pub agents: Names,
    pub outcomes: Names,
    pub types: Vec<Names>,
}

/// Numbers the names of a setting in which none stands twice.
pub(crate) fn number_names(alloc: Global, raw: &RawSetting) -> Result<Numbering, AllocError>
    requires { has_own_names (written raw.now) ≡ true }
    ensures { IfOk result (λ numbers. AreNumbered raw.now numbers.agents numbers.outcomes numbers.types.items) }
{
    Ok(Numbering {
        agents: agent_numbers(alloc, &raw.agents)?,
        outcomes: numbers(alloc, &raw.outcomes)?,
        types: type_numbers(alloc, &raw.agents)?,
    })
}

fn agent_numbers(alloc: Global, agents: &[RawAgent]) -> Result<Names, AllocError>
    requires { are_apart (map (λ agent. (written_agent agent).name) agents.now) ≡ true }
    ensures { IfOk result (λ names. names ≡ map (λ agent. (written_agent agent).name) agents.now) }
{
    let mut set = IndexSet::new(alloc);
    for agent in agents {
        set.insert(String::from_str(alloc, agent.name.as_str())?)?;
    }
    Ok(Names { set })
}

fn numbers(alloc: Global, texts: &[String]) -> Result<Names, AllocError>
    requires { are_apart (names_of texts.now) ≡ true }
    ensures { IfOk result (λ names. names ≡ names_of texts.now) }
{
    let mut set = IndexSet::new(alloc);
    for text in texts {
        set.insert(String::from_str(alloc, text.as_str())?)?;
    }
    Ok(Names { set })
}

fn type_numbers(alloc: Global, agents: &[RawAgent]) -> Result<Vec<Names>, AllocError>
    requires { list_all (λ agent. are_apart (written_agent agent).types) agents.now ≡ true }
    ensures { IfOk result (λ types. types.items ≡ map (λ agent. (written_agent agent).types) agents.now) }
{
    let mut types = Vec::new(alloc);
    for agent in agents {
        types.push(numbers(alloc, &agent.types)?)?;
    }
    Ok(types)
}
