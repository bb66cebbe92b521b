//! Terms, in the order of their columns.
ghost use Rattle.std.specs.Prelude.{◌≡◌, ℕ, ◌+◌, ℤ, ◌*ℤ◌, OnErr, OnOk};
ghost use Rattle.md_math.specs.Sizes.{IsWithin};
ghost use Rattle.md_forms.specs.Terms.{AddsTerms};

use md_lp::Term;
use md_num::NoMemory;

/// Appends a term. Where memory ran out the terms stay as they were.
pub fn push_term(terms: &mut Vec<Term>, column: u32, value: i128) -> Result<(), NoMemory>
    ensures ok { OnOk result ((limit : ℕ) → IsWithin limit value → AddsTerms limit column (column + 1) (λ x. value *ℤ x column) terms.old.items terms.new.items) }
    ensures err { OnErr result (terms.new.items ≡ terms.old.items) }
{
    terms.push(Term { column, value })?;
    Ok(())
}
