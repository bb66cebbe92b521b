//! The conditions on interim odds and payments, in the order of the rows of the program of a sale.
ghost use Rattle.std.specs.Prelude.{◌≡◌, ◌≤◌, ◌<◌, length};
ghost use Rattle.md_lp.specs.Cuts.{AreCuts};
ghost use Rattle.md_asym_sale.specs.Conditions.{conditions_of, own_conditions, agent_condition, IsAt, IsOwnAt};
ghost use Rattle.md_asym_sale.specs.Sale.{IsSale};
ghost use Rattle.md_asym_sale.specs.Values.{pairs_of};

use crate::shape::profiles;
use md_lp::Sets;
use md_mech::Condition;
use md_setting::Setting;

/// A condition, each with a row in the program.
#[derive(Clone, Copy)]
pub(crate) enum SaleCondition {
    /// That an agent with a type does not gain by telling another one.
    Truth {
        /// The agent.
        agent: u8,
        /// Its type.
        kind: u8,
        /// The type that it tells.
        other: u8,
    },
    /// That an agent with a type does not lose by taking part.
    Rational {
        /// The agent.
        agent: u8,
        /// Its type.
        kind: u8,
    },
    /// That the pairs in a set do not ask for the item more often than there are some.
    Cut {
        /// The set: the bit of a pair's number is 1 where it has the pair.
        set: u32,
    },
}

/// How many rows the program with these cuts has.
pub fn row_count(setting: &Setting, cuts: &Sets) -> u32
    requires sale { IsSale setting.now }
    requires cuts { AreCuts (pairs_of setting.now) cuts.now }
    ensures { result ≡ length (conditions_of setting.now cuts.now) }
{
    own_count(setting) + cuts.len() as u32
}

// How many conditions of the agents there are: the setting's own, but for those that let chances add to the whole.
fn own_count(setting: &Setting) -> u32
    requires { IsSale setting.now }
    ensures count { result ≡ length (own_conditions setting.now) }
    ensures few { result ≤ 4096 }
{
    setting.rows() - profiles(setting)
}

/// The condition of a row. It takes no memory.
pub(crate) fn condition_at(setting: &Setting, cuts: &Sets, row: u32) -> SaleCondition
    requires sale { IsSale setting.now }
    requires cuts { AreCuts (pairs_of setting.now) cuts.now }
    requires row { row < length (conditions_of setting.now cuts.now) }
    ensures { IsAt setting.now cuts.now row result }
{
    let own = own_count(setting);
    if row < own {
        return own_condition_at(setting, row);
    }
    let set = cuts.get((row - own) as usize);
    SaleCondition::Cut { set }
}

// The condition of an agent with a number: the setting's own one.
fn own_condition_at(setting: &Setting, row: u32) -> SaleCondition
    requires sale { IsSale setting.now }
    requires row { row < length (own_conditions setting.now) }
    ensures { IsOwnAt setting.now row result }
{
    let condition = md_mech::condition_at(setting, row);
    match agent_condition(condition) {
        Some(condition) => condition,
        None => unreachable!(),
    }
}

// A condition of an agent, where truth is bayes and rationality interim; None for others.
fn agent_condition(condition: Condition) -> Option<SaleCondition>
    ensures { result ≡ agent_condition condition }
{
    match condition {
        Condition::Bayes {
            agent,
            kind,
            report,
        } => Some(SaleCondition::Truth {
            agent,
            kind,
            other: report,
        }),
        Condition::Interim { agent, kind } => Some(SaleCondition::Rational { agent, kind }),
        Condition::Dominant { .. }
        | Condition::ExPost { .. }
        | Condition::Deficit { .. }
        | Condition::Profile { .. } => None,
    }
}
