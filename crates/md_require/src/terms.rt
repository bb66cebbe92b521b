//! The terms of the row of an amount, in the order of their columns.
ghost use Rattle.std.specs.Prelude.{◌≡◌, ℕ, ◌+◌, ◌*◌, ◌^◌, ◌<◌, ◌≤◌, ℤ, ◌*ℤ◌, neg_ℤ, IfOk, OnOk};
ghost use Rattle.md_math.specs.Sizes.{IsWithin};
ghost use Rattle.md_math.specs.Sums.{sum_to};
ghost use Rattle.md_space.specs.Profiles.{profile_count};
ghost use Rattle.md_setting.specs.Meaning.{agent_count, outcome_count, sizes_of};
ghost use Rattle.md_setting.specs.Rows.{column_count};
ghost use Rattle.md_forms.specs.Terms.{sum_at, AreTermsBelow, AddsTerms};
ghost use Rattle.md_rows.specs.Columns.{first_plus};
ghost use Rattle.md_require.specs.Named.{named};
ghost use Rattle.md_require.specs.Parts.{IsScaled, lottery_in, paid_in, part_in};
ghost use Rattle.md_require.specs.RequireProgram.{amount_in};

use crate::amount::Scaled;
use crate::parts::{scaled_chance, scaled_pay};
use md_forms::push_term;
use md_lp::Term;
use md_num::NoMemory;
use md_setting::Setting;
use std::alloc::Global;

/// An amount times a number.
pub(crate) fn amount_terms(
    alloc: Global,
    setting: &Setting,
    scaled: &Scaled,
) -> Result<Vec<Term>, NoMemory>
    requires { IsScaled setting.now scaled.now }
    ensures placed { IfOk result (λ terms. AreTermsBelow (2 ^ 44) (column_count setting.now) terms.items) }
    ensures sum { IfOk result (λ terms. (x : ℕ → ℤ) → sum_at x terms.items ≡ scaled.now.scale *ℤ amount_in setting.now x (named setting.now scaled.now.amount)) }
{
    let mut terms = Vec::new(alloc);
    push_lotteries(setting, scaled, &mut terms)?;
    push_payments(setting, scaled, &mut terms)?;
    Ok(terms)
}

// The chances of all profiles.
fn push_lotteries(setting: &Setting, scaled: &Scaled, terms: &mut Vec<Term>) -> Result<(), NoMemory>
    requires { IsScaled setting.now scaled.now }
    ensures { OnOk result (AddsTerms (2 ^ 44) 0 (first_plus setting.now) (λ x. sum_to (profile_count (sizes_of setting.now)) (lottery_in setting.now scaled.now.scale (named setting.now scaled.now.amount) x)) terms.old.items terms.new.items) }
{
    for rank in 0..setting.space().profiles() {
        push_lottery(setting, scaled, rank, terms)?;
    }
    Ok(())
}

// The chances of one profile.
fn push_lottery(
    setting: &Setting,
    scaled: &Scaled,
    rank: u32,
    terms: &mut Vec<Term>,
) -> Result<(), NoMemory>
    requires scaled { IsScaled setting.now scaled.now }
    requires rank_in { rank < profile_count (sizes_of setting.now) }
    ensures { OnOk result (AddsTerms (2 ^ 44) (rank * outcome_count setting.now) (rank * outcome_count setting.now + outcome_count setting.now) (λ x. lottery_in setting.now scaled.now.scale (named setting.now scaled.now.amount) x rank) terms.old.items terms.new.items) }
{
    let first = rank * setting.outcomes();
    for outcome in 0..setting.outcomes() {
        let value = scaled_chance(setting, scaled, rank, outcome);
        push_part(terms, first + outcome, value)?;
    }
    Ok(())
}

// The payments of all profiles.
fn push_payments(setting: &Setting, scaled: &Scaled, terms: &mut Vec<Term>) -> Result<(), NoMemory>
    requires { IsScaled setting.now scaled.now }
    ensures { OnOk result (AddsTerms (2 ^ 44) (first_plus setting.now) (column_count setting.now) (paid_in setting.now scaled.now.scale (named setting.now scaled.now.amount)) terms.old.items terms.new.items) }
{
    if !setting.payments() {
        return Ok(());
    }
    let space = setting.space();
    let plus = space.profiles() * setting.outcomes();
    let minus = plus + u32::from(space.agents()) * space.profiles();
    push_parts(setting, scaled, plus, terms)?;
    push_parts(setting, &negative(setting, scaled), minus, terms)
}

// The same amount times the number turned over.
fn negative(setting: &Setting, scaled: &Scaled) -> Scaled
    requires { IsScaled setting.now scaled.now }
    ensures scaled { IsScaled setting.now result }
    ensures amount { result.amount ≡ scaled.now.amount }
    ensures scale { result.scale ≡ neg_ℤ scaled.now.scale }
{
    Scaled {
        amount: scaled.amount,
        scale: -scaled.scale,
    }
}

// One part of the payments of all agents. The parts of all payments stand from the column `first` on.
fn push_parts(
    setting: &Setting,
    scaled: &Scaled,
    first: u32,
    terms: &mut Vec<Term>,
) -> Result<(), NoMemory>
    requires scaled { IsScaled setting.now scaled.now }
    requires few { first ≤ 22528 }
    ensures { OnOk result (AddsTerms (2 ^ 44) first (first + agent_count setting.now * profile_count (sizes_of setting.now)) (λ x. sum_to (agent_count setting.now) (part_in setting.now scaled.now.scale (named setting.now scaled.now.amount) first x)) terms.old.items terms.new.items) }
{
    for agent in 0..setting.space().agents() {
        push_part_of(setting, scaled, agent, first, terms)?;
    }
    Ok(())
}

// One part of the payments of an agent.
fn push_part_of(
    setting: &Setting,
    scaled: &Scaled,
    agent: u8,
    first: u32,
    terms: &mut Vec<Term>,
) -> Result<(), NoMemory>
    requires scaled { IsScaled setting.now scaled.now }
    requires agent_in { agent < agent_count setting.now }
    requires few { first ≤ 22528 }
    ensures { OnOk result (AddsTerms (2 ^ 44) (first + agent * profile_count (sizes_of setting.now)) (first + agent * profile_count (sizes_of setting.now) + profile_count (sizes_of setting.now)) (λ x. part_in setting.now scaled.now.scale (named setting.now scaled.now.amount) first x agent) terms.old.items terms.new.items) }
{
    let start = first + u32::from(agent) * setting.space().profiles();
    for rank in 0..setting.space().profiles() {
        let value = scaled_pay(setting, scaled, rank, agent);
        push_part(terms, start + rank, value)?;
    }
    Ok(())
}

// A term, unless its value is 0.
fn push_part(terms: &mut Vec<Term>, column: u32, value: i128) -> Result<(), NoMemory>
    ensures { OnOk result ((limit : ℕ) → IsWithin limit value → AddsTerms limit column (column + 1) (λ x. value *ℤ x column) terms.old.items terms.new.items) }
{
    if value == 0 {
        return Ok(());
    }
    push_term(terms, column, value)
}
