//! The terms of rows.
ghost use Rattle.std.specs.Prelude.{◌≡◌, ◌≢◌, ℕ, ◌+◌, ◌*◌, ◌^◌, ◌<◌, ◌≤◌, ℤ, pos, ◌-ℤ◌, ◌*ℤ◌, if◌then◌else◌, slice_index, IfOk, OnOk};
ghost use Rattle.md_math.specs.Sets.{member};
ghost use Rattle.md_math.specs.Sizes.{IsWithin};
ghost use Rattle.md_setting.specs.Meaning.{agent_count, sizes_of};
ghost use Rattle.md_forms.specs.Terms.{sum_at, AreTermsBelow, AddsTerms};
ghost use Rattle.md_asym_sale.specs.declared.condition.SaleCondition.TheVariants.{Truth, Rational, Cut};
ghost use Rattle.md_asym_sale.specs.Forms.{left_side};
ghost use Rattle.md_asym_sale.specs.ProgramOf.{column_count};
ghost use Rattle.md_asym_sale.specs.Sale.{IsSale};
ghost use Rattle.md_asym_sale.specs.Sides.{demand_at};
ghost use Rattle.md_asym_sale.specs.Values.{pairs_of};

use crate::pairs::{pair_count, pair_number};
use crate::sides::has_pair;
use crate::worth::{marginal_at, own_value};
use md_forms::push_term;
use md_lp::Term;
use md_num::NoMemory;
use md_setting::Setting;
use std::alloc::Global;

/// What an agent with a type has more where it tells another one.
pub(crate) fn truth_terms(
    alloc: Global,
    setting: &Setting,
    agent: u8,
    kind: u8,
    other: u8,
) -> Result<Vec<Term>, NoMemory>
    requires sale { IsSale setting.now }
    requires agent_in { agent < agent_count setting.now }
    requires kind_in { kind < slice_index (sizes_of setting.now) agent }
    requires other_in { other < slice_index (sizes_of setting.now) agent }
    requires apart { other ≢ kind }
    ensures placed { IfOk result (λ terms. AreTermsBelow (2 ^ 44) (column_count setting.now) terms.items) }
    ensures sum { IfOk result (λ terms. (x : ℕ → ℤ) → sum_at x terms.items ≡ left_side setting.now (Truth agent kind other) x) }
{
    let pairs = pair_count(setting);
    let told = pair_number(setting, agent, other);
    let own = pair_number(setting, agent, kind);
    let value = own_value(setting, agent, kind);
    let mut terms = Vec::new(alloc);
    push_difference(&mut terms, told, own, value)?;
    push_difference(&mut terms, pairs + own, pairs + told, 1)?;
    push_difference(&mut terms, 2 * pairs + told, 2 * pairs + own, 1)?;
    Ok(terms)
}

// The number of a column less that of another one, times a value, in the order of the columns.
fn push_difference(terms: &mut Vec<Term>, more: u32, less: u32, value: i128) -> Result<(), NoMemory>
    requires apart { more ≢ less }
    requires size { IsWithin 1000000 value }
    ensures { OnOk result ((first next : ℕ) → first ≤ more → first ≤ less → more < next → less < next → AddsTerms (2 ^ 44) first next (λ x. value *ℤ (x more -ℤ x less)) terms.old.items terms.new.items) }
{
    if more < less {
        push_term(terms, more, value)?;
        push_term(terms, less, -value)?;
    } else {
        push_term(terms, less, -value)?;
        push_term(terms, more, value)?;
    }
    Ok(())
}

/// What an agent with a type pays more than the item is worth to it.
pub(crate) fn rational_terms(
    alloc: Global,
    setting: &Setting,
    agent: u8,
    kind: u8,
) -> Result<Vec<Term>, NoMemory>
    requires sale { IsSale setting.now }
    requires agent_in { agent < agent_count setting.now }
    requires kind_in { kind < slice_index (sizes_of setting.now) agent }
    ensures placed { IfOk result (λ terms. AreTermsBelow (2 ^ 44) (column_count setting.now) terms.items) }
    ensures sum { IfOk result (λ terms. (x : ℕ → ℤ) → sum_at x terms.items ≡ left_side setting.now (Rational agent kind) x) }
{
    let pairs = pair_count(setting);
    let own = pair_number(setting, agent, kind);
    let mut terms = Vec::new(alloc);
    push_term(&mut terms, own, -own_value(setting, agent, kind))?;
    push_term(&mut terms, pairs + own, 1)?;
    push_term(&mut terms, 2 * pairs + own, -1)?;
    Ok(terms)
}

/// How often the pairs in a set ask for the item.
pub(crate) fn cut_terms(alloc: Global, setting: &Setting, set: u32) -> Result<Vec<Term>, NoMemory>
    requires { pairs_of setting.now ≤ 12 }
    ensures placed { IfOk result (λ terms. AreTermsBelow (2 ^ 44) (column_count setting.now) terms.items) }
    ensures sum { IfOk result (λ terms. (x : ℕ → ℤ) → sum_at x terms.items ≡ left_side setting.now (Cut set) x) }
{
    let mut terms = Vec::new(alloc);
    for pair in 0..pair_count(setting) {
        push_demand(setting, set, pair, &mut terms)?;
    }
    Ok(terms)
}

// The same with one pair, where it is in the set.
fn push_demand(
    setting: &Setting,
    set: u32,
    pair: u32,
    terms: &mut Vec<Term>,
) -> Result<(), NoMemory>
    requires pair_in { pair < pairs_of setting.now }
    requires few { pair < 12 }
    ensures { OnOk result (AddsTerms (2 ^ 44) pair (pair + 1) (λ x. if member set pair then demand_at setting.now x pair else pos 0) terms.old.items terms.new.items) }
{
    if has_pair(set, pair) {
        push_term(terms, pair, marginal_at(setting, pair))?;
    }
    Ok(())
}
