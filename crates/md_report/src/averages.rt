//! Expected numbers: over all profiles, and given the type of an agent.
ghost use Rattle.std.specs.Prelude.{◌≡◌, ◌<◌, ◌*◌, ◌^◌, pos, ◌<ℤ◌, ◌*ℤ◌, slice_index};
ghost use Rattle.md_math.specs.Sizes.{IsWithin};
ghost use Rattle.md_space.specs.ByType.{where_type};
ghost use Rattle.md_space.specs.Profiles.{profile_count, profile_at};
ghost use Rattle.md_setting.specs.Meaning.{agent_count, sizes_of, weight_of, total_of, marginal_of};
ghost use Rattle.md_setting.specs.Shaped.{IsShaped};
ghost use Rattle.md_mech.specs.Utility.{weighted_given};
ghost use Rattle.md_report.specs.Amounts.{amount_of, sum_of, IsAmount};
ghost use Rattle.md_report.specs.Averages.{weighted, IsExpected, IsExpectedGiven};
ghost use Rattle.md_report.specs.Numbers.{AreNumbers};

use crate::amount::{Amount, Sum};
use crate::measures::{amount, sum};
use md_mech::Mechanism;
use md_num::{Frac, add_product, product};
use md_setting::Setting;

/// What is expected of all agents.
pub(crate) fn expected(setting: &Setting, mechanism: &Mechanism, measure: Sum) -> Frac
    requires { AreNumbers setting.now mechanism.now }
    ensures value { IsExpected setting.now mechanism.now (sum_of setting.now mechanism.now measure) result }
    ensures shaped { IsShaped setting.now }
{
    Frac::reduced(
        over_all(setting, mechanism, measure),
        whole(setting, mechanism),
    )
}

/// What is expected of an agent, given its type.
pub(crate) fn expected_given(
    setting: &Setting,
    mechanism: &Mechanism,
    agent: u8,
    kind: u8,
    measure: Amount,
) -> Frac
    requires numbers { AreNumbers setting.now mechanism.now }
    requires agent_in { agent < agent_count setting.now }
    requires kind_in { kind < slice_index (sizes_of setting.now) agent }
    requires measure { IsAmount setting.now agent measure }
    ensures value { IsExpectedGiven setting.now mechanism.now agent kind (amount_of setting.now mechanism.now agent measure) result }
    ensures positive { pos 0 <ℤ (mechanism.now.den *ℤ marginal_of setting.now agent kind) }
{
    Frac::reduced(
        over_type(setting, mechanism, agent, kind, measure),
        whole_of_type(setting, mechanism, agent, kind),
    )
}

// The denominator times the weight of all profiles.
fn whole(setting: &Setting, mechanism: &Mechanism) -> i128
    requires { AreNumbers setting.now mechanism.now }
    ensures value { result ≡ mechanism.now.den *ℤ total_of setting.now }
    ensures positive { pos 0 <ℤ result }
    ensures size { IsWithin (2 ^ 82) result }
    ensures shaped { IsShaped setting.now }
{
    product(mechanism.den, setting.total())
}

// The denominator times the weight of a type.
fn whole_of_type(setting: &Setting, mechanism: &Mechanism, agent: u8, kind: u8) -> i128
    requires numbers { AreNumbers setting.now mechanism.now }
    requires agent_in { agent < agent_count setting.now }
    requires kind_in { kind < slice_index (sizes_of setting.now) agent }
    ensures value { result ≡ mechanism.now.den *ℤ marginal_of setting.now agent kind }
    ensures positive { pos 0 <ℤ result }
    ensures size { IsWithin (2 ^ 82) result }
{
    product(mechanism.den, setting.marginal(agent, kind))
}

// The sum over all profiles, by weight.
fn over_all(setting: &Setting, mechanism: &Mechanism, measure: Sum) -> i128
    requires { AreNumbers setting.now mechanism.now }
    ensures value { result ≡ weighted setting.now (sum_of setting.now mechanism.now measure) }
    ensures size { IsWithin (2 ^ 125) result }
{
    let mut total = 0;
    for rank in 0..setting.space().profiles() {
        total = add_product(
            total,
            setting.weight(rank),
            sum(setting, mechanism, measure, rank),
        );
    }
    total
}

// The sum over the profiles in which an agent has a type, by weight.
fn over_type(setting: &Setting, mechanism: &Mechanism, agent: u8, kind: u8, measure: Amount) -> i128
    requires numbers { AreNumbers setting.now mechanism.now }
    requires agent_in { agent < agent_count setting.now }
    requires kind_in { kind < slice_index (sizes_of setting.now) agent }
    requires measure { IsAmount setting.now agent measure }
    ensures value { result ≡ weighted_given setting.now agent kind (amount_of setting.now mechanism.now agent measure) }
    ensures size { IsWithin (2 ^ 122) result }
{
    let mut total = 0;
    for rank in 0..setting.space().profiles() {
        total += term(setting, mechanism, agent, kind, measure, rank);
    }
    total
}

// What one profile adds to it: nothing where the agent has another type.
fn term(
    setting: &Setting,
    mechanism: &Mechanism,
    agent: u8,
    kind: u8,
    measure: Amount,
    rank: u32,
) -> i128
    requires numbers { AreNumbers setting.now mechanism.now }
    requires agent_in { agent < agent_count setting.now }
    requires measure { IsAmount setting.now agent measure }
    requires rank_in { rank < profile_count (sizes_of setting.now) }
    ensures value { result ≡ where_type agent kind (λ t. weight_of setting.now t *ℤ amount_of setting.now mechanism.now agent measure t) (profile_at (sizes_of setting.now) rank) }
    ensures size { IsWithin (1000000 * 2 ^ 91) result }
{
    if setting.space().report(rank, agent) != kind {
        return 0;
    }
    product(
        setting.weight(rank),
        amount(setting, mechanism, agent, measure, rank),
    )
}
