//! The pairs of an agent and one of its types, numbered by agent, then by type.
ghost use Rattle.std.specs.Prelude.{◌≡◌, ◌<◌, ◌≤◌, ◌*◌, slice_index};
ghost use Rattle.md_setting.specs.Meaning.{agent_count, sizes_of};
ghost use Rattle.md_setting.specs.Shaped.{IsShaped};
ghost use Rattle.md_asym_sale.specs.Pairs.{pairs_before, pair_number, agent_of, kind_of};
ghost use Rattle.md_asym_sale.specs.Values.{pairs_of};

use crate::shape::{agents, types};
use md_setting::Setting;

/// An agent and one of its types.
#[derive(Clone, Copy)]
pub struct Pair {
    /// The agent.
    pub agent: u8,
    /// The number of its type.
    pub kind: u8,
}

/// How many pairs there are.
pub fn pair_count(setting: &Setting) -> u32
    ensures value { result ≡ pairs_of setting.now }
    ensures few { result ≤ 96 }
    ensures shaped { IsShaped setting.now }
{
    pairs_before(setting, agents(setting))
}

// How many pairs have an agent before one, or any agent.
fn pairs_before(setting: &Setting, agent: u8) -> u32
    requires { agent ≤ agent_count setting.now }
    ensures value { result ≡ pairs_before (sizes_of setting.now) agent }
    ensures few { result ≤ agent * 16 }
{
    let mut pairs = 0;
    for before in 0..agent {
        pairs += u32::from(types(setting, before));
    }
    pairs
}

/// The number of the pair of an agent and a type.
pub fn pair_number(setting: &Setting, agent: u8, kind: u8) -> u32
    requires agent_in { agent < agent_count setting.now }
    requires kind_in { kind < slice_index (sizes_of setting.now) agent }
    ensures value { result ≡ pair_number (sizes_of setting.now) agent kind }
    ensures below { result < pairs_of setting.now }
{
    pairs_before(setting, agent) + u32::from(kind)
}

/// The pair with a number.
pub fn pair_at(setting: &Setting, number: u32) -> Pair
    requires { number < pairs_of setting.now }
    ensures agent_in { result.agent < agent_count setting.now }
    ensures kind_in { result.kind < slice_index (sizes_of setting.now) result.agent }
    ensures agent { result.agent ≡ agent_of (sizes_of setting.now) number }
    ensures kind { result.kind ≡ kind_of (sizes_of setting.now) number }
{
    let mut rest = number;
    for agent in 0..agents(setting) {
        let types = types(setting, agent);
        if rest < u32::from(types) {
            let kind = rest as u8;
            return Pair { agent, kind };
        }
        rest -= u32::from(types);
    }
    unreachable!()
}
