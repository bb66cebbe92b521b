//! What each chance and each payment counts in an amount.
ghost use Rattle.std.specs.Prelude.{◌≡◌, ◌<◌, ◌^◌, pos, ◌*ℤ◌, if◌then◌else◌};
ghost use Rattle.md_math.specs.Sizes.{IsWithin};
ghost use Rattle.md_space.specs.Profiles.{profile_at, profile_count};
ghost use Rattle.md_setting.specs.Meaning.{agent_count, outcome_count, sizes_of, welfare_of};
ghost use Rattle.md_require.specs.Named.{IsInside, named};
ghost use Rattle.md_require.specs.Parts.{IsScaled, chance_part, pay_part};

use crate::amount::{Amount, Scaled};
use md_num::product;
use md_setting::Setting;

/// What the chance of an outcome at a rank counts, times the number.
pub(crate) fn scaled_chance(setting: &Setting, scaled: &Scaled, rank: u32, outcome: u32) -> i128
    requires scaled { IsScaled setting.now scaled.now }
    requires rank_in { rank < profile_count (sizes_of setting.now) }
    requires outcome_in { outcome < outcome_count setting.now }
    ensures value { result ≡ scaled.now.scale *ℤ chance_part setting.now (named setting.now scaled.now.amount) rank outcome }
    ensures size { IsWithin (2 ^ 44) result }
{
    product(
        scaled.scale,
        chance_part(setting, scaled.amount, rank, outcome),
    )
}

/// What the payment of an agent at a rank counts, times the number.
pub(crate) fn scaled_pay(setting: &Setting, scaled: &Scaled, rank: u32, agent: u8) -> i128
    requires scaled { IsScaled setting.now scaled.now }
    requires rank_in { rank < profile_count (sizes_of setting.now) }
    requires agent_in { agent < agent_count setting.now }
    ensures value { result ≡ scaled.now.scale *ℤ pay_part setting.now (named setting.now scaled.now.amount) rank agent }
    ensures size { IsWithin (2 ^ 44) result }
{
    product(scaled.scale, pay_part(setting, scaled.amount, rank, agent))
}

/// What the chance of an outcome at a rank counts.
pub fn chance_part(setting: &Setting, amount: Amount, rank: u32, outcome: u32) -> i128
    requires inside { IsInside setting.now amount }
    requires rank_in { rank < profile_count (sizes_of setting.now) }
    requires outcome_in { outcome < outcome_count setting.now }
    ensures value { result ≡ chance_part setting.now (named setting.now amount) rank outcome }
    ensures size { IsWithin (2 ^ 43) result }
{
    match amount {
        Amount::Revenue | Amount::PaymentAt { .. } => 0,
        Amount::Welfare => product(setting.weight(rank), welfare(setting, rank, outcome)),
        Amount::Utility { agent } => {
            product(setting.weight(rank), setting.utility(agent, rank, outcome))
        }
        Amount::Chance { outcome: of } => value_where(outcome == of, setting.weight(rank)),
        Amount::ChanceAt {
            rank: at,
            outcome: of,
        } => { value_where(outcome == of, value_where(rank == at, 1)) }
    }
}

/// What the payment of an agent at a rank counts.
pub fn pay_part(setting: &Setting, amount: Amount, rank: u32, agent: u8) -> i128
    requires inside { IsInside setting.now amount }
    requires rank_in { rank < profile_count (sizes_of setting.now) }
    requires agent_in { agent < agent_count setting.now }
    ensures value { result ≡ pay_part setting.now (named setting.now amount) rank agent }
    ensures size { IsWithin (2 ^ 43) result }
{
    match amount {
        Amount::Revenue => setting.weight(rank),
        Amount::Utility { agent: of } => value_where(agent == of, -setting.weight(rank)),
        Amount::PaymentAt {
            rank: at,
            agent: of,
        } => { value_where(agent == of, value_where(rank == at, 1)) }
        Amount::Welfare | Amount::Chance { .. } | Amount::ChanceAt { .. } => 0,
    }
}

// What an outcome is worth to all agents at a rank.
fn welfare(setting: &Setting, rank: u32, outcome: u32) -> i128
    requires rank_in { rank < profile_count (sizes_of setting.now) }
    requires outcome_in { outcome < outcome_count setting.now }
    ensures value { result ≡ welfare_of setting.now (profile_at (sizes_of setting.now) rank) outcome }
    ensures size { IsWithin 6000000 result }
{
    let mut sum = 0;
    for agent in 0..setting.space().agents() {
        sum += setting.utility(agent, rank, outcome);
    }
    sum
}

// A value where a test holds, and else 0.
fn value_where(test: bool, value: i128) -> i128
    ensures { result ≡ (if test then value else pos 0) }
{
    if test { value } else { 0 }
}
