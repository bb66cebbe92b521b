//! What agents get of a mechanism on average over the profiles in which they have a type.
ghost use Rattle.std.specs.Prelude.{◌≡◌, ◌<◌, ◌*◌, ◌^◌, ◌*ℤ◌, slice_index};
ghost use Rattle.md_math.specs.Sizes.{IsWithin};
ghost use Rattle.md_space.specs.Profiles.{profile_count, profile_at, replaced};
ghost use Rattle.md_setting.specs.Meaning.{agent_count, sizes_of, outside_of, marginal_of};
ghost use Rattle.md_mech.specs.Accepted.{IsAccepted};
ghost use Rattle.md_mech.specs.Utility.{expected_utility, weighted_given, average_term};

use crate::Mechanism;
use crate::utilities::{outside, utility};
use md_num::product;
use md_setting::Setting;

/// What an agent of a type gets, by weight, over the profiles in which it has the type and tells it.
pub(crate) fn average_truth(setting: &Setting, mechanism: &Mechanism, agent: u8, kind: u8) -> i128
    requires accepted { IsAccepted setting.now mechanism.now }
    requires agent_in { agent < agent_count setting.now }
    requires kind_in { kind < slice_index (sizes_of setting.now) agent }
    ensures value { result ≡ weighted_given setting.now agent kind (λ t. expected_utility setting.now mechanism.now agent t t) }
{
    average(setting, mechanism, agent, kind, kind)
}

/// The same where it reports a type, true or false.
pub(crate) fn average(
    setting: &Setting,
    mechanism: &Mechanism,
    agent: u8,
    kind: u8,
    report: u8,
) -> i128
    requires accepted { IsAccepted setting.now mechanism.now }
    requires agent_in { agent < agent_count setting.now }
    requires kind_in { kind < slice_index (sizes_of setting.now) agent }
    requires report_in { report < slice_index (sizes_of setting.now) agent }
    ensures value { result ≡ weighted_given setting.now agent kind (λ t. expected_utility setting.now mechanism.now agent t (replaced t agent report)) }
{
    let mut sum = 0;
    for rank in 0..setting.space().profiles() {
        sum += term_at(setting, mechanism, agent, kind, report, rank);
    }
    sum
}

// What one profile adds to it: nothing where the agent has another type.
fn term_at(
    setting: &Setting,
    mechanism: &Mechanism,
    agent: u8,
    kind: u8,
    report: u8,
    rank: u32,
) -> i128
    requires accepted { IsAccepted setting.now mechanism.now }
    requires agent_in { agent < agent_count setting.now }
    requires kind_in { kind < slice_index (sizes_of setting.now) agent }
    requires report_in { report < slice_index (sizes_of setting.now) agent }
    requires rank_in { rank < profile_count (sizes_of setting.now) }
    ensures value { result ≡ average_term setting.now mechanism.now agent kind report (profile_at (sizes_of setting.now) rank) }
    ensures size { IsWithin (1000000 * 2 ^ 90) result }
{
    if setting.space().report(rank, agent) != kind {
        return 0;
    }
    let told = utility(
        setting,
        mechanism,
        agent,
        rank,
        setting.space().replace(rank, agent, report),
    );
    product(setting.weight(rank), told)
}

/// What an agent of a type has without taking part, by weight, over the profiles in which it has the type.
pub(crate) fn average_outside(setting: &Setting, mechanism: &Mechanism, agent: u8, kind: u8) -> i128
    requires accepted { IsAccepted setting.now mechanism.now }
    requires agent_in { agent < agent_count setting.now }
    requires kind_in { kind < slice_index (sizes_of setting.now) agent }
    ensures value { result ≡ (mechanism.now.den *ℤ outside_of setting.now agent kind) *ℤ marginal_of setting.now agent kind }
{
    product(
        outside(setting, mechanism, agent, kind),
        setting.marginal(agent, kind),
    )
}
