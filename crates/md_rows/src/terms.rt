//! The terms of rows, in the order of their columns.
ghost use Rattle.std.specs.Prelude.{◌≡◌, ℕ, ◌<◌, ◌≤◌, ◌+◌, ◌*◌, ◌^◌, ℤ, pos, neg_ℤ, ◌*ℤ◌, slice_index, IfOk, OnOk, All};
ghost use Rattle.md_math.specs.Sizes.{IsWithin};
ghost use Rattle.md_math.specs.Sums.{sum_to, total_by};
ghost use Rattle.md_space.specs.Profiles.{profile_count, profile_at};
ghost use Rattle.md_setting.specs.Meaning.{agent_count, outcome_count, sizes_of, utility_of};
ghost use Rattle.md_setting.specs.Rows.{column_count};
ghost use Rattle.md_mech.specs.Rows.{deficit_row, profile_row};
ghost use Rattle.md_forms.specs.Terms.{sum_at, AreTermsBelow, AddsTerms};
ghost use Rattle.md_rows.specs.Columns.{first_plus, first_minus};
ghost use Rattle.md_rows.specs.Sides.{utility_as, left_side};
ghost use Rattle.md_rows.specs.Terms.{chances_at, part_at, paid_at, part_of_all};

use crate::layout::{first_minus, first_plus};
use md_forms::push_term;
use md_lp::Term;
use md_num::{NoMemory, product};
use md_setting::Setting;
use std::alloc::Global;

/// The weighted utility of an agent of a type: `shares` has the weight of its utility at each profile of reports, at the
/// profile's rank. The others report their true types.
pub(crate) fn utility_terms(
    alloc: Global,
    setting: &Setting,
    agent: u8,
    kind: u8,
    shares: &[Term],
) -> Result<Vec<Term>, NoMemory>
    requires agent_in { agent < agent_count setting.now }
    requires kind_in { kind < slice_index (sizes_of setting.now) agent }
    requires shares { AreTermsBelow 1000000 (profile_count (sizes_of setting.now)) shares.now }
    ensures placed { IfOk result (λ terms. AreTermsBelow (2 ^ 44) (column_count setting.now) terms.items) }
    ensures sum { IfOk result (λ terms. (x : ℕ → ℤ) → sum_at x terms.items ≡ sum_at (λ r. utility_as setting.now x agent kind (profile_at (sizes_of setting.now) r)) shares.now) }
{
    let mut terms = Vec::new(alloc);
    push_lotteries(setting, agent, kind, shares, &mut terms)?;
    push_payments(setting, agent, shares, &mut terms)?;
    Ok(terms)
}

// The chances of the profiles, times an agent's utilities and the profiles' weights.
fn push_lotteries(
    setting: &Setting,
    agent: u8,
    kind: u8,
    shares: &[Term],
    terms: &mut Vec<Term>,
) -> Result<(), NoMemory>
    requires agent_in { agent < agent_count setting.now }
    requires kind_in { kind < slice_index (sizes_of setting.now) agent }
    requires shares { AreTermsBelow 1000000 (profile_count (sizes_of setting.now)) shares.now }
    ensures { OnOk result (AddsTerms (2 ^ 44) 0 (first_plus setting.now) (λ x. total_by (chances_at setting.now agent kind x) shares.now) terms.old.items terms.new.items) }
{
    for share in shares {
        push_lottery(setting, agent, kind, share, terms)?;
    }
    Ok(())
}

// The chances of one profile, where the agent is of the type.
fn push_lottery(
    setting: &Setting,
    agent: u8,
    kind: u8,
    share: &Term,
    terms: &mut Vec<Term>,
) -> Result<(), NoMemory>
    requires agent_in { agent < agent_count setting.now }
    requires kind_in { kind < slice_index (sizes_of setting.now) agent }
    requires rank_in { share.now.column < profile_count (sizes_of setting.now) }
    requires small { IsWithin 1000000 share.now.value }
    ensures { OnOk result (AddsTerms (2 ^ 44) (share.now.column * outcome_count setting.now) (share.now.column * outcome_count setting.now + outcome_count setting.now) (λ x. chances_at setting.now agent kind x share.now) terms.old.items terms.new.items) }
{
    let truth = setting.space().replace(share.column, agent, kind);
    let first = share.column * setting.outcomes();
    for outcome in 0..setting.outcomes() {
        let value = scaled_utility(setting, agent, truth, outcome, share.value);
        push_term(terms, first + outcome, value)?;
    }
    Ok(())
}

// The utility of an agent at an outcome where the profile of a rank has the true types, times a weight.
fn scaled_utility(setting: &Setting, agent: u8, truth: u32, outcome: u32, weight: i128) -> i128
    requires agent_in { agent < agent_count setting.now }
    requires truth_in { truth < profile_count (sizes_of setting.now) }
    requires outcome_in { outcome < outcome_count setting.now }
    requires small { IsWithin 1000000 weight }
    ensures value { result ≡ weight *ℤ utility_of setting.now agent (profile_at (sizes_of setting.now) truth) outcome }
    ensures size { IsWithin (2 ^ 44) result }
{
    product(weight, setting.utility(agent, truth, outcome))
}

// What an agent pays at the profiles, taken from its utility by the profiles' weights.
fn push_payments(
    setting: &Setting,
    agent: u8,
    shares: &[Term],
    terms: &mut Vec<Term>,
) -> Result<(), NoMemory>
    requires agent_in { agent < agent_count setting.now }
    requires shares { AreTermsBelow 1000000 (profile_count (sizes_of setting.now)) shares.now }
    ensures { OnOk result (AddsTerms (2 ^ 44) (first_plus setting.now) (column_count setting.now) (λ x. neg_ℤ (total_by (paid_at setting.now agent x) shares.now)) terms.old.items terms.new.items) }
{
    if !setting.payments() {
        return Ok(());
    }
    push_parts(setting, agent, shares, first_plus(setting), -1, terms)?;
    push_parts(setting, agent, shares, first_minus(setting), 1, terms)?;
    Ok(())
}

// One part of what an agent pays at the profiles, with a sign. The parts of all payments stand from the column `first` on.
fn push_parts(
    setting: &Setting,
    agent: u8,
    shares: &[Term],
    first: u32,
    sign: i128,
    terms: &mut Vec<Term>,
) -> Result<(), NoMemory>
    requires agent_in { agent < agent_count setting.now }
    requires shares { AreTermsBelow 1000000 (profile_count (sizes_of setting.now)) shares.now }
    requires few { first ≤ 22528 }
    requires sign { IsWithin 1 sign }
    ensures { OnOk result (AddsTerms (2 ^ 44) first (first + agent_count setting.now * profile_count (sizes_of setting.now)) (λ x. total_by (part_at (first + agent * profile_count (sizes_of setting.now)) sign x) shares.now) terms.old.items terms.new.items) }
{
    let start = first + u32::from(agent) * setting.space().profiles();
    for share in shares {
        push_term(terms, start + share.column, product(sign, share.value))?;
    }
    Ok(())
}

/// What all agents together pay at the profile of a rank, to be at least 0.
pub(crate) fn deficit_terms(
    alloc: Global,
    setting: &Setting,
    rank: u32,
) -> Result<Vec<Term>, NoMemory>
    requires rank_in { rank < profile_count (sizes_of setting.now) }
    ensures placed { IfOk result (λ terms. AreTermsBelow (2 ^ 44) (column_count setting.now) terms.items) }
    ensures sum { IfOk result (λ terms. (x : ℕ → ℤ) → sum_at x terms.items ≡ left_side setting.now (deficit_row (profile_at (sizes_of setting.now) rank)) x) }
{
    let mut terms = Vec::new(alloc);
    push_all_payments(setting, rank, &mut terms)?;
    Ok(terms)
}

// What each agent pays at the profile of a rank, taken away.
fn push_all_payments(setting: &Setting, rank: u32, terms: &mut Vec<Term>) -> Result<(), NoMemory>
    requires rank_in { rank < profile_count (sizes_of setting.now) }
    ensures { OnOk result (AddsTerms (2 ^ 44) (first_plus setting.now) (column_count setting.now) (left_side setting.now (deficit_row (profile_at (sizes_of setting.now) rank))) terms.old.items terms.new.items) }
{
    if !setting.payments() {
        return Ok(());
    }
    push_part_of_all(setting, rank, first_plus(setting), -1, terms)?;
    push_part_of_all(setting, rank, first_minus(setting), 1, terms)?;
    Ok(())
}

// One part of what each agent pays at the profile of a rank, with a sign.
fn push_part_of_all(
    setting: &Setting,
    rank: u32,
    first: u32,
    sign: i128,
    terms: &mut Vec<Term>,
) -> Result<(), NoMemory>
    requires rank_in { rank < profile_count (sizes_of setting.now) }
    requires few { first ≤ 22528 }
    requires sign { IsWithin 1 sign }
    ensures { OnOk result (AddsTerms (2 ^ 44) first (first + agent_count setting.now * profile_count (sizes_of setting.now)) (λ x. sum_to (agent_count setting.now) (part_of_all setting.now first rank sign x)) terms.old.items terms.new.items) }
{
    let profiles = setting.space().profiles();
    for agent in 0..setting.space().agents() {
        push_term(terms, first + (u32::from(agent) * profiles + rank), sign)?;
    }
    Ok(())
}

/// The chances of the profile of a rank.
pub(crate) fn profile_terms(
    alloc: Global,
    setting: &Setting,
    rank: u32,
) -> Result<Vec<Term>, NoMemory>
    requires rank_in { rank < profile_count (sizes_of setting.now) }
    ensures placed { IfOk result (λ terms. AreTermsBelow (2 ^ 44) (column_count setting.now) terms.items) }
    ensures sum { IfOk result (λ terms. (x : ℕ → ℤ) → sum_at x terms.items ≡ left_side setting.now (profile_row (profile_at (sizes_of setting.now) rank)) x) }
{
    let mut terms = Vec::new(alloc);
    let first = rank * setting.outcomes();
    for outcome in 0..setting.outcomes() {
        push_term(&mut terms, first + outcome, 1)?;
    }
    Ok(terms)
}
