//! What agents get of a mechanism.
ghost use Rattle.std.specs.Prelude.{◌≡◌, ◌<◌, ◌^◌, ◌*ℤ◌, slice_index};
ghost use Rattle.md_math.specs.Sizes.{IsWithin};
ghost use Rattle.md_math.specs.Sums.{sum_to};
ghost use Rattle.md_space.specs.Profiles.{profile_count, profile_at};
ghost use Rattle.md_setting.specs.Meaning.{agent_count, outcome_count, sizes_of, utility_of, outside_of};
ghost use Rattle.md_mech.specs.Accepted.{IsAccepted};
ghost use Rattle.md_mech.specs.Mechanism.{chance_of, pay_of};
ghost use Rattle.md_mech.specs.Utility.{expected_utility};

use crate::Mechanism;
use md_num::{add_product, product};
use md_setting::Setting;

/// The utility of an agent where the profile of the rank `truth` has the true types and that of the rank `rank` the
/// reports, in units of one over the denominator.
pub fn utility(setting: &Setting, mechanism: &Mechanism, agent: u8, truth: u32, rank: u32) -> i128
    requires accepted { IsAccepted setting.now mechanism.now }
    requires agent_in { agent < agent_count setting.now }
    requires truth_in { truth < profile_count (sizes_of setting.now) }
    requires rank_in { rank < profile_count (sizes_of setting.now) }
    ensures value { result ≡ expected_utility setting.now mechanism.now agent (profile_at (sizes_of setting.now) truth) (profile_at (sizes_of setting.now) rank) }
    ensures size { IsWithin (2 ^ 90) result }
{
    expected_value(setting, mechanism, agent, truth, rank)
        - payment(setting, mechanism, agent, rank)
}

// What an agent expects of the lottery at the reports of a rank, by the true types of another.
fn expected_value(
    setting: &Setting,
    mechanism: &Mechanism,
    agent: u8,
    truth: u32,
    rank: u32,
) -> i128
    requires accepted { IsAccepted setting.now mechanism.now }
    requires agent_in { agent < agent_count setting.now }
    requires truth_in { truth < profile_count (sizes_of setting.now) }
    requires rank_in { rank < profile_count (sizes_of setting.now) }
    ensures value { result ≡ sum_to (outcome_count setting.now) (λ o. chance_of setting.now mechanism.now (profile_at (sizes_of setting.now) rank) o *ℤ utility_of setting.now agent (profile_at (sizes_of setting.now) truth) o) }
    ensures size { IsWithin (2 ^ 86) result }
{
    let mut sum = 0;
    for outcome in 0..setting.outcomes() {
        let chance = chance(setting, mechanism, rank, outcome);
        sum = add_product(sum, chance, setting.utility(agent, truth, outcome));
    }
    sum
}

/// The chance of an outcome at the reports of a rank, in units of one over the denominator.
#[tactic(auto, using(crate::proofs::UtilityLaws::by_rank))]
pub fn chance(setting: &Setting, mechanism: &Mechanism, rank: u32, outcome: u32) -> i128
    requires accepted { IsAccepted setting.now mechanism.now }
    requires rank_in { rank < profile_count (sizes_of setting.now) }
    requires outcome_in { outcome < outcome_count setting.now }
    ensures value { result ≡ chance_of setting.now mechanism.now (profile_at (sizes_of setting.now) rank) outcome }
    ensures size { IsWithin (2 ^ 62) result }
{
    mechanism.chances.get(rank as usize * setting.outcomes() as usize + outcome as usize)
}

/// What an agent pays at the reports of a rank, in units of one over the denominator.
#[tactic(auto, using(crate::proofs::UtilityLaws::by_rank))]
pub fn payment(setting: &Setting, mechanism: &Mechanism, agent: u8, rank: u32) -> i128
    requires accepted { IsAccepted setting.now mechanism.now }
    requires agent_in { agent < agent_count setting.now }
    requires rank_in { rank < profile_count (sizes_of setting.now) }
    ensures value { result ≡ pay_of setting.now mechanism.now agent (profile_at (sizes_of setting.now) rank) }
    ensures size { IsWithin (2 ^ 62) result }
{
    mechanism.pays.get(rank as usize * setting.space().agents() as usize + agent as usize)
}

/// What an agent of a type has without taking part, in units of one over the denominator.
pub(crate) fn outside(setting: &Setting, mechanism: &Mechanism, agent: u8, kind: u8) -> i128
    requires accepted { IsAccepted setting.now mechanism.now }
    requires agent_in { agent < agent_count setting.now }
    requires kind_in { kind < slice_index (sizes_of setting.now) agent }
    ensures value { result ≡ mechanism.now.den *ℤ outside_of setting.now agent kind }
    ensures size { IsWithin (2 ^ 82) result }
{
    product(mechanism.den, setting.outside(agent, kind))
}

/// What all agents pay together at the reports of a rank.
pub(crate) fn payments(setting: &Setting, mechanism: &Mechanism, rank: u32) -> i128
    requires accepted { IsAccepted setting.now mechanism.now }
    requires rank_in { rank < profile_count (sizes_of setting.now) }
    ensures value { result ≡ sum_to (agent_count setting.now) (λ i. pay_of setting.now mechanism.now i (profile_at (sizes_of setting.now) rank)) }
    ensures size { IsWithin (2 ^ 65) result }
{
    let mut sum = 0;
    for agent in 0..setting.space().agents() {
        sum += payment(setting, mechanism, agent, rank);
    }
    sum
}
