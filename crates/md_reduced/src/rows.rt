//! The conditions as rows.
ghost use Rattle.std.specs.Prelude.{◌≡◌, ℕ, ◌<◌, ◌^◌, ℤ, [], ◌∷◌, IfOk, OnOk};
ghost use Rattle.md_math.specs.Sizes.{IsWithin};
ghost use Rattle.md_setting.specs.Auction.{value_count};
ghost use Rattle.md_lp.specs.Program.{row_count};
ghost use Rattle.md_forms.specs.Built.{Extends};
ghost use Rattle.md_forms.specs.Terms.{sum_at, AreTermsBelow};
ghost use Rattle.md_reduced.specs.Conditions.{IsInside};
ghost use Rattle.md_reduced.specs.ProgramOf.{column_count, form_with};
ghost use Rattle.md_reduced.specs.Sides.{left_side};

use crate::condition::ReducedCondition;
use crate::terms::{cut_terms, rational_terms, truth_terms};
use md_forms::push_form;
use md_lp::{Lp, RowKind, Term};
use md_num::NoMemory;
use md_setting::Auction;
use std::alloc::Global;

/// Appends the row of a condition with this right side.
pub(crate) fn push_condition(
    alloc: Global,
    auction: &Auction,
    condition: ReducedCondition,
    right: i128,
    lp: &mut Lp,
) -> Result<(), NoMemory>
    requires inside { IsInside (value_count auction.now) condition }
    requires size { IsWithin (2 ^ 44) right }
    requires columns { lp.old.columns ≡ column_count auction.now }
    requires room { row_count lp.old < 8192 }
    ensures { OnOk result (Extends (form_with auction.now right condition ∷ []) lp.old lp.new) }
{
    let terms = left_terms(alloc, auction, condition)?;
    push_form(lp, RowKind::AtMost, &terms, right)
}

// The left side of a condition.
fn left_terms(
    alloc: Global,
    auction: &Auction,
    condition: ReducedCondition,
) -> Result<Vec<Term>, NoMemory>
    requires inside { IsInside (value_count auction.now) condition }
    ensures placed { IfOk result (λ terms. AreTermsBelow (2 ^ 44) (column_count auction.now) terms.items) }
    ensures sum { IfOk result (λ terms. (x : ℕ → ℤ) → sum_at x terms.items ≡ left_side auction.now condition x) }
{
    match condition {
        ReducedCondition::Truth { kind, other } => truth_terms(alloc, auction, kind, other),
        ReducedCondition::Rational { kind } => rational_terms(alloc, auction, kind),
        ReducedCondition::Cut { set } => cut_terms(alloc, auction, set),
    }
}
