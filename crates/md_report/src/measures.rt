//! What is measured of agents at the profile of a rank.
ghost use Rattle.std.specs.Prelude.{◌≡◌, ◌<◌, ◌*◌, ◌^◌, ◌*ℤ◌, slice_index};
ghost use Rattle.md_math.specs.Sizes.{IsWithin};
ghost use Rattle.md_math.specs.Sums.{sum_to};
ghost use Rattle.md_space.specs.Profiles.{profile_count, profile_at};
ghost use Rattle.md_setting.specs.Meaning.{agent_count, outcome_count, sizes_of, outside_of, utility_of};
ghost use Rattle.md_mech.specs.Mechanism.{chance_of, pay_of};
ghost use Rattle.md_mech.specs.Utility.{expected_utility};
ghost use Rattle.md_report.specs.Amounts.{amount_of, sum_of, IsAmount};
ghost use Rattle.md_report.specs.Numbers.{AreNumbers};
ghost use Rattle.md_report.specs.Regret.{regret_at, missing_at, payments_at, welfare_at};

use crate::amount::{Amount, Sum};
use md_mech::Mechanism;
use md_num::{add_product, product};
use md_setting::Setting;

/// What is measured of an agent at the profile of a rank.
pub(crate) fn amount(
    setting: &Setting,
    mechanism: &Mechanism,
    agent: u8,
    measure: Amount,
    rank: u32,
) -> i128
    requires numbers { AreNumbers setting.now mechanism.now }
    requires agent_in { agent < agent_count setting.now }
    requires measure { IsAmount setting.now agent measure }
    requires rank_in { rank < profile_count (sizes_of setting.now) }
    ensures value { result ≡ amount_of setting.now mechanism.now agent measure (profile_at (sizes_of setting.now) rank) }
    ensures size { IsWithin (2 ^ 91) result }
{
    match measure {
        Amount::Utility => utility(setting, mechanism, agent, rank, rank),
        Amount::Payment => payment(setting, mechanism, agent, rank),
        Amount::Regret { report } => regret(setting, mechanism, agent, rank, report),
        Amount::Missing => missing(setting, mechanism, agent, rank),
    }
}

/// What is measured of all agents at the profile of a rank.
pub(crate) fn sum(setting: &Setting, mechanism: &Mechanism, measure: Sum, rank: u32) -> i128
    requires numbers { AreNumbers setting.now mechanism.now }
    requires rank_in { rank < profile_count (sizes_of setting.now) }
    ensures value { result ≡ sum_of setting.now mechanism.now measure (profile_at (sizes_of setting.now) rank) }
    ensures size { IsWithin (2 ^ 94) result }
{
    match measure {
        Sum::Payments => payments(setting, mechanism, rank),
        Sum::Welfare => welfare(setting, mechanism, rank),
    }
}

// What an agent pays at the reports of a rank.
fn payment(setting: &Setting, mechanism: &Mechanism, agent: u8, rank: u32) -> i128
    requires numbers { AreNumbers setting.now mechanism.now }
    requires agent_in { agent < agent_count setting.now }
    requires rank_in { rank < profile_count (sizes_of setting.now) }
    ensures value { result ≡ pay_of setting.now mechanism.now agent (profile_at (sizes_of setting.now) rank) }
    ensures size { IsWithin (2 ^ 62) result }
{
    mechanism.pays.get(rank as usize * setting.space().agents() as usize + agent as usize)
}

// What an agent gets more by a report than by its true type.
fn regret(setting: &Setting, mechanism: &Mechanism, agent: u8, rank: u32, report: u8) -> i128
    requires numbers { AreNumbers setting.now mechanism.now }
    requires agent_in { agent < agent_count setting.now }
    requires report_in { report < slice_index (sizes_of setting.now) agent }
    requires rank_in { rank < profile_count (sizes_of setting.now) }
    ensures value { result ≡ regret_at setting.now mechanism.now agent (profile_at (sizes_of setting.now) rank) report }
    ensures size { IsWithin (2 ^ 91) result }
{
    let told = setting.space().replace(rank, agent, report);
    let by_report = utility(setting, mechanism, agent, rank, told);
    let by_truth = utility(setting, mechanism, agent, rank, rank);
    by_report - by_truth
}

// What an agent gets less than it has outside.
fn missing(setting: &Setting, mechanism: &Mechanism, agent: u8, rank: u32) -> i128
    requires numbers { AreNumbers setting.now mechanism.now }
    requires agent_in { agent < agent_count setting.now }
    requires rank_in { rank < profile_count (sizes_of setting.now) }
    ensures value { result ≡ missing_at setting.now mechanism.now agent (profile_at (sizes_of setting.now) rank) }
    ensures size { IsWithin (2 ^ 91) result }
{
    let kind = setting.space().report(rank, agent);
    let outside = outside(setting, mechanism, agent, kind);
    let inside = utility(setting, mechanism, agent, rank, rank);
    outside - inside
}

// What an agent of a type has outside, in units of one over the denominator.
fn outside(setting: &Setting, mechanism: &Mechanism, agent: u8, kind: u8) -> i128
    requires numbers { AreNumbers setting.now mechanism.now }
    requires agent_in { agent < agent_count setting.now }
    requires kind_in { kind < slice_index (sizes_of setting.now) agent }
    ensures value { result ≡ mechanism.now.den *ℤ outside_of setting.now agent kind }
    ensures size { IsWithin (2 ^ 82) result }
{
    product(mechanism.den, setting.outside(agent, kind))
}

// What an agent gets where the profile of the rank `truth` has the true types and that of the rank `rank` the reports.
fn utility(setting: &Setting, mechanism: &Mechanism, agent: u8, truth: u32, rank: u32) -> i128
    requires numbers { AreNumbers setting.now mechanism.now }
    requires agent_in { agent < agent_count setting.now }
    requires truth_in { truth < profile_count (sizes_of setting.now) }
    requires rank_in { rank < profile_count (sizes_of setting.now) }
    ensures value { result ≡ expected_utility setting.now mechanism.now agent (profile_at (sizes_of setting.now) truth) (profile_at (sizes_of setting.now) rank) }
    ensures size { IsWithin (2 ^ 90) result }
{
    lottery(setting, mechanism, agent, truth, rank) - payment(setting, mechanism, agent, rank)
}

// What it expects of the lottery there, payments left out.
fn lottery(setting: &Setting, mechanism: &Mechanism, agent: u8, truth: u32, rank: u32) -> i128
    requires numbers { AreNumbers setting.now mechanism.now }
    requires agent_in { agent < agent_count setting.now }
    requires truth_in { truth < profile_count (sizes_of setting.now) }
    requires rank_in { rank < profile_count (sizes_of setting.now) }
    ensures value { result ≡ sum_to (outcome_count setting.now) (λ o. chance_of setting.now mechanism.now (profile_at (sizes_of setting.now) rank) o *ℤ utility_of setting.now agent (profile_at (sizes_of setting.now) truth) o) }
    ensures size { IsWithin (2 ^ 86) result }
{
    let mut sum = 0;
    for outcome in 0..setting.outcomes() {
        let chance = chance(setting, mechanism, rank, outcome);
        sum = add_product(sum, chance, setting.utility(agent, truth, outcome));
    }
    sum
}

// The chance of an outcome at the reports of a rank.
#[tactic(auto, using(crate::proofs::MeasureLaws::by_rank))]
fn chance(setting: &Setting, mechanism: &Mechanism, rank: u32, outcome: u32) -> i128
    requires numbers { AreNumbers setting.now mechanism.now }
    requires rank_in { rank < profile_count (sizes_of setting.now) }
    requires outcome_in { outcome < outcome_count setting.now }
    ensures value { result ≡ chance_of setting.now mechanism.now (profile_at (sizes_of setting.now) rank) outcome }
    ensures size { IsWithin (2 ^ 62) result }
{
    mechanism.chances.get(rank as usize * setting.outcomes() as usize + outcome as usize)
}

// What all agents pay together.
fn payments(setting: &Setting, mechanism: &Mechanism, rank: u32) -> i128
    requires numbers { AreNumbers setting.now mechanism.now }
    requires rank_in { rank < profile_count (sizes_of setting.now) }
    ensures value { result ≡ payments_at setting.now mechanism.now (profile_at (sizes_of setting.now) rank) }
    ensures size { IsWithin (6 * 2 ^ 62) result }
{
    let mut sum = 0;
    for agent in 0..setting.space().agents() {
        sum += payment(setting, mechanism, agent, rank);
    }
    sum
}

// What all agents expect of the lottery together.
fn welfare(setting: &Setting, mechanism: &Mechanism, rank: u32) -> i128
    requires numbers { AreNumbers setting.now mechanism.now }
    requires rank_in { rank < profile_count (sizes_of setting.now) }
    ensures value { result ≡ welfare_at setting.now mechanism.now (profile_at (sizes_of setting.now) rank) }
    ensures size { IsWithin (6 * 2 ^ 86) result }
{
    let mut sum = 0;
    for agent in 0..setting.space().agents() {
        sum += lottery(setting, mechanism, agent, rank, rank);
    }
    sum
}
