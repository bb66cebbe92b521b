//! What the agent that gets least gets of a mechanism on average.
ghost use Rattle.std.specs.Prelude.{◌≡◌, ◌⊎◌, ◌<◌, ◌-◌, ◌^◌, pos, ◌<ℤ◌, ◌≤ℤ◌, ◌*ℤ◌};
ghost use Rattle.md_math.specs.Sizes.{IsWithin};
ghost use Rattle.md_setting.specs.Meaning.{agent_count, total_of};
ghost use Rattle.md_mech.specs.Accepted.{IsAccepted};
ghost use Rattle.md_fair.specs.Least.{IsLeast, IsLeastValueOf, least_of};
ghost use Rattle.md_fair.specs.Mean.{mean_of};

use md_mech::{Mechanism, utility};
use md_num::{Frac, add_product, product};
use md_setting::Setting;

/// What the agent that gets least gets on average, in least terms: the least of what the agents get over all profiles by
/// weight, over the denominator times the weight of all profiles. It takes no memory.
pub fn least(setting: &Setting, mechanism: &Mechanism) -> Frac
    requires { IsAccepted setting.now mechanism.now }
    ensures value { IsLeastValueOf setting.now mechanism.now result }
    ensures num_size { IsWithin (2 ^ 126 - 1) result.num }
    ensures den_size { IsWithin (2 ^ 126 - 1) result.den }
{
    Frac::reduced(least_mean(setting, mechanism), whole(setting, mechanism))
}

// The denominator times the weight of all profiles.
fn whole(setting: &Setting, mechanism: &Mechanism) -> i128
    requires { IsAccepted setting.now mechanism.now }
    ensures value { result ≡ mechanism.now.den *ℤ total_of setting.now }
    ensures positive { pos 0 <ℤ result }
    ensures size { IsWithin (2 ^ 82) result }
{
    product(mechanism.den, setting.total())
}

/// The least of what the agents get over all profiles by weight.
pub(crate) fn least_mean(setting: &Setting, mechanism: &Mechanism) -> i128
    requires { IsAccepted setting.now mechanism.now }
    ensures value { IsLeast setting.now mechanism.now result }
    ensures is { result ≡ least_of setting.now mechanism.now }
    ensures size { IsWithin (2 ^ 120) result }
{
    let agents = setting.space().agents();
    let mut least = mean(setting, mechanism, 0);
    for agent in 1..agents {
        least = lesser(least, mean(setting, mechanism, agent));
    }
    least
}

// The lesser of two numbers.
fn lesser(first: i128, second: i128) -> i128
    ensures { ((result ≡ first) × (first ≤ℤ second)) ⊎ ((result ≡ second) × (second ≤ℤ first)) }
{
    if second < first { second } else { first }
}

// What an agent gets over all profiles by weight, where all tell their types.
fn mean(setting: &Setting, mechanism: &Mechanism, agent: u8) -> i128
    requires accepted { IsAccepted setting.now mechanism.now }
    requires agent_in { agent < agent_count setting.now }
    ensures value { result ≡ mean_of setting.now mechanism.now agent }
    ensures size { IsWithin (2 ^ 120) result }
{
    let mut sum = 0;
    for rank in 0..setting.space().profiles() {
        sum = add_product(
            sum,
            setting.weight(rank),
            utility(setting, mechanism, agent, rank, rank),
        );
    }
    sum
}
