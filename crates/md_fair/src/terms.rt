//! The terms of the row of an agent, in the order of their columns.
ghost use Rattle.std.specs.Prelude.{◌≡◌, ℕ, ◌+◌, ◌*◌, ◌^◌, ◌<◌, ◌≤◌, ℤ, neg_ℤ, ◌*ℤ◌, IfOk, OnOk};
ghost use Rattle.md_math.specs.Sizes.{IsWithin};
ghost use Rattle.md_math.specs.Sums.{sum_to};
ghost use Rattle.md_space.specs.Profiles.{profile_count, profile_at};
ghost use Rattle.md_setting.specs.Meaning.{agent_count, outcome_count, sizes_of, utility_of, weight_of};
ghost use Rattle.md_setting.specs.Rows.{column_count};
ghost use Rattle.md_forms.specs.Terms.{sum_at, AreTermsBelow, AddsTerms};
ghost use Rattle.md_rows.specs.Columns.{first_plus};
ghost use Rattle.md_fair.specs.FairProgram.{lag_in};
ghost use Rattle.md_fair.specs.Terms.{lottery_lost, part_paid, paid_in};

use crate::layout::{first_payment, level_column, payment_count};
use md_forms::push_term;
use md_lp::Term;
use md_num::{NoMemory, product};
use md_setting::Setting;
use std::alloc::Global;

/// By how much the level exceeds what an agent gets on average.
pub(crate) fn agent_terms(
    alloc: Global,
    setting: &Setting,
    agent: u8,
) -> Result<Vec<Term>, NoMemory>
    requires { agent < agent_count setting.now }
    ensures placed { IfOk result (λ terms. AreTermsBelow (2 ^ 44) (column_count setting.now + 2) terms.items) }
    ensures sum { IfOk result (λ terms. (x : ℕ → ℤ) → sum_at x terms.items ≡ lag_in setting.now x agent) }
{
    let mut terms = Vec::new(alloc);
    push_lotteries(setting, agent, &mut terms)?;
    push_payments(setting, agent, &mut terms)?;
    let level = level_column(setting);
    push_term(&mut terms, level, 1)?;
    push_term(&mut terms, level + 1, -1)?;
    Ok(terms)
}

// What the agent has of the lotteries of all profiles, by weight, taken away.
fn push_lotteries(setting: &Setting, agent: u8, terms: &mut Vec<Term>) -> Result<(), NoMemory>
    requires { agent < agent_count setting.now }
    ensures { OnOk result (AddsTerms (2 ^ 44) 0 (first_plus setting.now) (λ x. sum_to (profile_count (sizes_of setting.now)) (lottery_lost setting.now agent x)) terms.old.items terms.new.items) }
{
    for rank in 0..setting.space().profiles() {
        push_lottery(setting, agent, rank, terms)?;
    }
    Ok(())
}

// What the agent has of the lottery of one profile, by weight, taken away.
fn push_lottery(
    setting: &Setting,
    agent: u8,
    rank: u32,
    terms: &mut Vec<Term>,
) -> Result<(), NoMemory>
    requires agent_in { agent < agent_count setting.now }
    requires rank_in { rank < profile_count (sizes_of setting.now) }
    ensures { OnOk result (AddsTerms (2 ^ 44) (rank * outcome_count setting.now) (rank * outcome_count setting.now + outcome_count setting.now) (λ x. lottery_lost setting.now agent x rank) terms.old.items terms.new.items) }
{
    let first = rank * setting.outcomes();
    for outcome in 0..setting.outcomes() {
        let value = lost_utility(setting, agent, rank, outcome);
        push_term(terms, first + outcome, value)?;
    }
    Ok(())
}

// The utility of the agent at an outcome of a profile, by weight, taken away.
fn lost_utility(setting: &Setting, agent: u8, rank: u32, outcome: u32) -> i128
    requires agent_in { agent < agent_count setting.now }
    requires rank_in { rank < profile_count (sizes_of setting.now) }
    requires outcome_in { outcome < outcome_count setting.now }
    ensures value { result ≡ neg_ℤ (weight_of setting.now (profile_at (sizes_of setting.now) rank)) *ℤ utility_of setting.now agent (profile_at (sizes_of setting.now) rank) outcome }
    ensures size { IsWithin (2 ^ 44) result }
{
    product(-setting.weight(rank), setting.utility(agent, rank, outcome))
}

// What the agent pays at all profiles, by weight.
fn push_payments(setting: &Setting, agent: u8, terms: &mut Vec<Term>) -> Result<(), NoMemory>
    requires { agent < agent_count setting.now }
    ensures { OnOk result (AddsTerms (2 ^ 44) (first_plus setting.now) (column_count setting.now) (paid_in setting.now agent) terms.old.items terms.new.items) }
{
    if !setting.payments() {
        return Ok(());
    }
    let plus = first_payment(setting);
    push_parts(setting, agent, plus, 1, terms)?;
    push_parts(setting, agent, plus + payment_count(setting), -1, terms)
}

// One part of what the agent pays at all profiles, by weight, with a sign. The parts of all payments stand from the column
// `first` on.
fn push_parts(
    setting: &Setting,
    agent: u8,
    first: u32,
    sign: i128,
    terms: &mut Vec<Term>,
) -> Result<(), NoMemory>
    requires agent_in { agent < agent_count setting.now }
    requires few { first ≤ 22528 }
    requires sign { IsWithin 1 sign }
    ensures { OnOk result (AddsTerms (2 ^ 44) first (first + agent_count setting.now * profile_count (sizes_of setting.now)) (λ x. sum_to (profile_count (sizes_of setting.now)) (part_paid setting.now agent first sign x)) terms.old.items terms.new.items) }
{
    let start = first + u32::from(agent) * setting.space().profiles();
    for rank in 0..setting.space().profiles() {
        push_term(terms, start + rank, product(sign, setting.weight(rank)))?;
    }
    Ok(())
}
