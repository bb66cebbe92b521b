//! Whether a setting is a sale.
ghost use Rattle.std.specs.Prelude.{◌≡◌, ◌+◌, ◌<◌, ◌≤◌, ◌↔◌, ◌==◌, ◌≤ℤ◌, pos, IsTrue};
ghost use Rattle.md_space.specs.Profiles.{profile_count, profile_at};
ghost use Rattle.md_setting.specs.declared.kinds.Truth.TheVariants.{Bayes};
ghost use Rattle.md_setting.specs.declared.kinds.Rational.TheVariants.{Interim};
ghost use Rattle.md_setting.specs.Meaning.{agent_count, outcome_count, sizes_of, utility_of};
ghost use Rattle.md_setting.specs.Shaped.{IsShaped};
ghost use Rattle.md_asym_sale.specs.Sale.{IsSale, IsInterim, IsPaid, IsIndependentAt};
ghost use Rattle.md_asym_sale.specs.Tested.{HasOwnValue, IsUtilityAt, AreUtilitiesOf, AreUtilitiesAt, AreUtilities, HasNothing, HaveNothing, AreIndependent};
ghost use Rattle.md_asym_sale.specs.Values.{pairs_of};

use crate::pairs::pair_count;
use crate::products::{total_of_others, type_weights};
use crate::shape::{agents, outcome_of, profiles, type_at, types};
use crate::worth::own_value;
use md_num::product;
use md_setting::{Rational, Setting, Truth};

/// Whether a setting is the sale of one item: there is one outcome more than agents, the first of which keeps the item and
/// is worth nothing to any agent; at each other one an agent has it, to whom it is worth no less than nothing by its own
/// type alone, and to all others nothing. Truth is bayes and rationality interim, nothing is had outside, there are payments
/// and no condition on the deficit, the factor of the payments is not negative, there are at most 12 types together, and
/// the agents' types are independent. It takes no memory.
pub fn is_sale(setting: &Setting) -> bool
    ensures { IsTrue result ↔ IsSale setting.now }
{
    if !has_an_outcome_each(setting) {
        return false;
    }
    if !has_few_types(setting) {
        return false;
    }
    if !is_interim(setting) {
        return false;
    }
    if !is_paid(setting) {
        return false;
    }
    if !has_no_negative_factor(setting) {
        return false;
    }
    if !has_nothing_outside(setting) {
        return false;
    }
    if !has_utilities(setting) {
        return false;
    }
    is_independent(setting)
}

// Whether there is one outcome more than agents.
fn has_an_outcome_each(setting: &Setting) -> bool
    ensures tells { IsTrue result ↔ (outcome_count setting.now ≡ agent_count setting.now + 1) }
    ensures shaped { IsShaped setting.now }
{
    setting.outcomes() == u32::from(agents(setting)) + 1
}

fn has_few_types(setting: &Setting) -> bool
    ensures { IsTrue result ↔ (pairs_of setting.now ≤ 12) }
{
    pair_count(setting) <= 12
}

fn is_interim(setting: &Setting) -> bool
    ensures { IsTrue result ↔ IsInterim setting.now }
{
    is_bayes(setting.truth()) && is_on_average(setting.rational())
}

fn is_bayes(truth: Truth) -> bool
    ensures { IsTrue result ↔ (truth ≡ Bayes) }
{
    match truth {
        Truth::Bayes => true,
        Truth::Dominant => false,
    }
}

fn is_on_average(rational: Rational) -> bool
    ensures { IsTrue result ↔ (rational ≡ Interim) }
{
    match rational {
        Rational::Interim => true,
        Rational::None | Rational::ExPost => false,
    }
}

fn is_paid(setting: &Setting) -> bool
    ensures { IsTrue result ↔ IsPaid setting.now }
{
    setting.payments() && !setting.no_deficit()
}

fn has_no_negative_factor(setting: &Setting) -> bool
    ensures { IsTrue result ↔ (pos 0 ≤ℤ setting.now.revenue) }
{
    is_nonnegative(setting.revenue())
}

fn is_nonnegative(number: i128) -> bool
    ensures { IsTrue result ↔ (pos 0 ≤ℤ number) }
{
    number >= 0
}

fn is_zero(number: i128) -> bool
    ensures { IsTrue result ↔ (number ≡ pos 0) }
{
    number == 0
}

fn is_same(left: i128, right: i128) -> bool
    ensures { IsTrue result ↔ (left ≡ right) }
{
    left == right
}

fn has_nothing_outside(setting: &Setting) -> bool
    ensures { IsTrue result ↔ HaveNothing setting.now }
{
    for agent in 0..agents(setting) {
        if !agent_has_nothing_outside(setting, agent) {
            return false;
        }
    }
    true
}

fn agent_has_nothing_outside(setting: &Setting, agent: u8) -> bool
    requires { agent < agent_count setting.now }
    ensures { IsTrue result ↔ HasNothing setting.now agent }
{
    for kind in 0..types(setting, agent) {
        if !is_zero(setting.outside(agent, kind)) {
            return false;
        }
    }
    true
}

// Whether the utilities are those of a sale, at all profiles.
fn has_utilities(setting: &Setting) -> bool
    requires { outcome_count setting.now ≡ agent_count setting.now + 1 }
    ensures { IsTrue result ↔ AreUtilities setting.now }
{
    for rank in 0..profiles(setting) {
        if !has_utilities_at(setting, rank) {
            return false;
        }
    }
    true
}

fn has_utilities_at(setting: &Setting, rank: u32) -> bool
    requires one_more { outcome_count setting.now ≡ agent_count setting.now + 1 }
    requires rank_in { rank < profile_count (sizes_of setting.now) }
    ensures { IsTrue result ↔ AreUtilitiesAt setting.now rank }
{
    for outcome in 0..setting.outcomes() {
        if !has_utilities_of(setting, rank, outcome) {
            return false;
        }
    }
    true
}

fn has_utilities_of(setting: &Setting, rank: u32, outcome: u32) -> bool
    requires one_more { outcome_count setting.now ≡ agent_count setting.now + 1 }
    requires rank_in { rank < profile_count (sizes_of setting.now) }
    requires outcome_in { outcome < outcome_count setting.now }
    ensures { IsTrue result ↔ AreUtilitiesOf setting.now rank outcome }
{
    for agent in 0..agents(setting) {
        if !has_utility(setting, rank, outcome, agent) {
            return false;
        }
    }
    true
}

fn has_utility(setting: &Setting, rank: u32, outcome: u32, agent: u8) -> bool
    requires one_more { outcome_count setting.now ≡ agent_count setting.now + 1 }
    requires rank_in { rank < profile_count (sizes_of setting.now) }
    requires outcome_in { outcome < outcome_count setting.now }
    requires agent_in { agent < agent_count setting.now }
    ensures { IsTrue result ↔ IsUtilityAt setting.now rank outcome agent }
{
    if has_item(agent, outcome) {
        has_own_value(setting, rank, agent)
    } else {
        is_zero(setting.utility(agent, rank, outcome))
    }
}

// Whether an agent has the item at an outcome.
fn has_item(agent: u8, outcome: u32) -> bool
    ensures { result ≡ (outcome == agent + 1) }
{
    outcome == outcome_of(agent)
}

// Whether the item is worth to an agent, at the profile of a rank, what it is worth to its type, and no less than nothing.
fn has_own_value(setting: &Setting, rank: u32, agent: u8) -> bool
    requires one_more { outcome_count setting.now ≡ agent_count setting.now + 1 }
    requires rank_in { rank < profile_count (sizes_of setting.now) }
    requires agent_in { agent < agent_count setting.now }
    ensures { IsTrue result ↔ HasOwnValue setting.now agent (profile_at (sizes_of setting.now) rank) }
{
    let kind = type_at(setting, rank, agent);
    let utility = value_at(setting, rank, agent);
    if !is_nonnegative(utility) {
        return false;
    }
    is_same(utility, own_value(setting, agent, kind))
}

// What the item is worth to an agent at the profile of a rank.
fn value_at(setting: &Setting, rank: u32, agent: u8) -> i128
    requires one_more { outcome_count setting.now ≡ agent_count setting.now + 1 }
    requires rank_in { rank < profile_count (sizes_of setting.now) }
    requires agent_in { agent < agent_count setting.now }
    ensures { result ≡ utility_of setting.now agent (profile_at (sizes_of setting.now) rank) (agent + 1) }
{
    setting.utility(agent, rank, outcome_of(agent))
}

fn is_independent(setting: &Setting) -> bool
    ensures { IsTrue result ↔ AreIndependent setting.now }
{
    for rank in 0..profiles(setting) {
        if !is_independent_at(setting, rank) {
            return false;
        }
    }
    true
}

fn is_independent_at(setting: &Setting, rank: u32) -> bool
    requires { rank < profile_count (sizes_of setting.now) }
    ensures { IsTrue result ↔ IsIndependentAt setting.now (profile_at (sizes_of setting.now) rank) }
{
    is_same(
        product(setting.weight(rank), total_of_others(setting)),
        type_weights(setting, rank),
    )
}
