//! The terms of rows.
ghost use Rattle.std.specs.Prelude.{◌≡◌, ◌≢◌, ℕ, ◌+◌, ◌*◌, ◌^◌, ◌<◌, ◌≤◌, ℤ, pos, ◌-ℤ◌, ◌*ℤ◌, if◌then◌else◌, IfOk, OnOk};
ghost use Rattle.md_math.specs.Sets.{member};
ghost use Rattle.md_math.specs.Sizes.{IsWithin};
ghost use Rattle.md_setting.specs.Auction.{value_count};
ghost use Rattle.md_border.specs.Odds.{weight_given};
ghost use Rattle.md_forms.specs.Terms.{sum_at, AreTermsBelow, AddsTerms};
ghost use Rattle.md_reduced.specs.declared.condition.ReducedCondition.TheVariants.{Truth, Rational, Cut};
ghost use Rattle.md_reduced.specs.ProgramOf.{column_count};
ghost use Rattle.md_reduced.specs.Sides.{left_side};

use md_border::{has_kind, weight_of_all};
use md_forms::push_term;
use md_lp::Term;
use md_num::NoMemory;
use md_setting::Auction;
use std::alloc::Global;

/// What a bidder with a value has more where it tells another value.
pub(crate) fn truth_terms(
    alloc: Global,
    auction: &Auction,
    kind: u32,
    other: u32,
) -> Result<Vec<Term>, NoMemory>
    requires kind_in { kind < value_count auction.now }
    requires other_in { other < value_count auction.now }
    requires apart { other ≢ kind }
    ensures placed { IfOk result (λ terms. AreTermsBelow (2 ^ 44) (column_count auction.now) terms.items) }
    ensures sum { IfOk result (λ terms. (x : ℕ → ℤ) → sum_at x terms.items ≡ left_side auction.now (Truth kind other) x) }
{
    let kinds = auction.kinds();
    let minus = 2 * kinds;
    let value = i128::from(auction.value(kind));
    let mut terms = Vec::new(alloc);
    push_difference(&mut terms, other, kind, value)?;
    push_difference(&mut terms, kinds + kind, kinds + other, 1)?;
    push_difference(&mut terms, minus + other, minus + kind, 1)?;
    Ok(terms)
}

// The number of a column less that of another one, times a value, in the order of the columns.
fn push_difference(terms: &mut Vec<Term>, more: u32, less: u32, value: i128) -> Result<(), NoMemory>
    requires apart { more ≢ less }
    requires size { IsWithin 1000000 value }
    ensures { OnOk result ((first next : ℕ) → first ≤ more → first ≤ less → more < next → less < next → AddsTerms (2 ^ 44) first next (λ x. value *ℤ (x more -ℤ x less)) terms.old.items terms.new.items) }
{
    if more < less {
        push_term(terms, more, value)?;
        push_term(terms, less, -value)?;
    } else {
        push_term(terms, less, -value)?;
        push_term(terms, more, value)?;
    }
    Ok(())
}

/// What a bidder with a value pays more than the item is worth to it.
pub(crate) fn rational_terms(
    alloc: Global,
    auction: &Auction,
    kind: u32,
) -> Result<Vec<Term>, NoMemory>
    requires { kind < value_count auction.now }
    ensures placed { IfOk result (λ terms. AreTermsBelow (2 ^ 44) (column_count auction.now) terms.items) }
    ensures sum { IfOk result (λ terms. (x : ℕ → ℤ) → sum_at x terms.items ≡ left_side auction.now (Rational kind) x) }
{
    let kinds = auction.kinds();
    let mut terms = Vec::new(alloc);
    push_term(&mut terms, kind, -i128::from(auction.value(kind)))?;
    push_term(&mut terms, kinds + kind, 1)?;
    push_term(&mut terms, 2 * kinds + kind, -1)?;
    Ok(terms)
}

/// How often all bidders together ask for the item with a value in a set.
pub(crate) fn cut_terms(alloc: Global, auction: &Auction, set: u32) -> Result<Vec<Term>, NoMemory>
    ensures placed { IfOk result (λ terms. AreTermsBelow (2 ^ 44) (column_count auction.now) terms.items) }
    ensures sum { IfOk result (λ terms. (x : ℕ → ℤ) → sum_at x terms.items ≡ left_side auction.now (Cut set) x) }
{
    let mut terms = Vec::new(alloc);
    for kind in 0..auction.kinds() {
        push_demand(auction, set, kind, &mut terms)?;
    }
    Ok(terms)
}

// The same with one value, where it is in the set.
fn push_demand(
    auction: &Auction,
    set: u32,
    kind: u32,
    terms: &mut Vec<Term>,
) -> Result<(), NoMemory>
    requires kind_in { kind < value_count auction.now }
    requires few { kind < 12 }
    ensures { OnOk result (AddsTerms (2 ^ 44) kind (kind + 1) (λ x. if member set kind then pos (auction.now.bidders * weight_given auction.now kind) *ℤ x kind else pos 0) terms.old.items terms.new.items) }
{
    if has_kind(set, kind) {
        push_term(terms, kind, weight_of_all(auction, kind))?;
    }
    Ok(())
}
