//! What the item of a sale is worth, and how likely each pair is.
ghost use Rattle.std.specs.Prelude.{◌≡◌, ◌+◌, ◌-ℤ◌, ◌<◌, slice_index};
ghost use Rattle.md_math.specs.Sizes.{IsWithin};
ghost use Rattle.md_setting.specs.Meaning.{agent_count, outcome_count, sizes_of};
ghost use Rattle.md_asym_sale.specs.Sale.{IsSale};
ghost use Rattle.md_asym_sale.specs.Values.{pairs_of, own_value, marginal_at, surplus_at, surplus_of};

use crate::pairs::pair_at;
use crate::shape::outcome_of;
use md_setting::Setting;

/// What the item is worth to an agent of a type, where all others have their first types.
pub(crate) fn own_value(setting: &Setting, agent: u8, kind: u8) -> i128
    requires agent_in { agent < agent_count setting.now }
    requires kind_in { kind < slice_index (sizes_of setting.now) agent }
    requires one_more { outcome_count setting.now ≡ agent_count setting.now + 1 }
    ensures value { result ≡ own_value setting.now agent kind }
    ensures size { IsWithin 1000000 result }
{
    let rank = setting.space().replace(0, agent, kind);
    setting.utility(agent, rank, outcome_of(agent))
}

/// The weight of the profiles in which the agent of a pair has its type.
pub fn marginal_at(setting: &Setting, number: u32) -> i128
    requires { number < pairs_of setting.now }
    ensures value { result ≡ marginal_at setting.now number }
    ensures size { IsWithin 1000000 result }
{
    let pair = pair_at(setting, number);
    setting.marginal(pair.agent, pair.kind)
}

/// What it is worth to the designer that the agent of a pair with its type has the item, more than where it is kept.
pub fn surplus_at(setting: &Setting, number: u32) -> i128
    requires sale { IsSale setting.now }
    requires number_in { number < pairs_of setting.now }
    ensures value { result ≡ surplus_at setting.now number }
    ensures size { IsWithin 11000000 result }
{
    let pair = pair_at(setting, number);
    surplus(setting, pair.agent, pair.kind)
}

fn surplus(setting: &Setting, agent: u8, kind: u8) -> i128
    requires sale { IsSale setting.now }
    requires agent_in { agent < agent_count setting.now }
    requires kind_in { kind < slice_index (sizes_of setting.now) agent }
    ensures value { result ≡ surplus_of setting.now agent kind }
    ensures size { IsWithin 11000000 result }
{
    let rank = setting.space().replace(0, agent, kind);
    let sold = setting.value(rank, outcome_of(agent));
    difference(sold, setting.value(rank, 0))
}

fn difference(left: i128, right: i128) -> i128
    requires left { IsWithin 10000000 left }
    requires right { IsWithin 10000000 right }
    ensures { result ≡ left -ℤ right }
{
    left - right
}
