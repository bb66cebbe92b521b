//! Division of a row and of a cost by its greatest common divisor.
ghost use Rattle.std.specs.Prelude.{◌^◌, ◌<◌, All, ℤ, pos, ◌<ℤ◌, ℕ, ◌∷◌, length, map, IfOk};
ghost use Rattle.md_math.specs.Divisors.{Divides, IsGcdOf};
ghost use Rattle.md_math.specs.Lists.{number_at};
ghost use Rattle.md_math.specs.Sizes.{IsWithin, AllWithin};
ghost use Rattle.md_lp.specs.Divided.{IsDivisorFor, IsDividedTerms, IsDividedRow, IsDividedList};
ghost use Rattle.md_lp.specs.Shape.{numbers_of};
ghost use Rattle.md_lp.specs.Stored.{shown, shown_terms};

use crate::row_kind::RowKind;
use crate::stored_row::StoredRow;
use crate::stored_term::{StoredTerm, stored_term};
use crate::term::Term;
use md_num::{NoMemory, Nums, exact_quotient, gcd};
use std::alloc::Global;

// The greatest common divisor of a row's numbers.
fn common_divisor_of_row(terms: &[Term], right: i128) -> i128
    requires { AllWithin (2 ^ 44) (right ∷ map (λ term. term.value) terms.now) }
    ensures { let numbers = right ∷ map (λ term. term.value) terms.now in IsGcdOf (length numbers) (number_at numbers) result }
{
    let mut common = gcd(0, right);
    for term in terms {
        common = gcd(common, term.value);
    }
    common
}

// The greatest common divisor of the numbers of a cost.
fn common_divisor_of_cost(cost: &[i128]) -> i128
    requires { AllWithin (2 ^ 44) cost.now }
    ensures { IsGcdOf (length cost.now) (number_at cost.now) result }
{
    let mut common = 0;
    for number in cost {
        common = gcd(common, *number);
    }
    common
}

// The number by which numbers with this greatest common divisor are divided.
fn divisor_from(common: i128) -> i128
    ensures { (n : ℕ) (f : ℕ → ℤ) → IsGcdOf n f common → IsDivisorFor n f result }
{
    if common == 0 { 1 } else { common }
}

// The number by which a row is divided.
fn row_divisor(terms: &[Term], right: i128) -> i128
    requires { AllWithin (2 ^ 44) (right ∷ map (λ term. term.value) terms.now) }
    ensures { let numbers = right ∷ map (λ term. term.value) terms.now in IsDivisorFor (length numbers) (number_at numbers) result }
{
    divisor_from(common_divisor_of_row(terms, right))
}

// The terms, each value divided.
fn divided_terms(alloc: Global, terms: &[Term], by: i128) -> Result<Vec<StoredTerm>, NoMemory>
    requires positive { pos 0 <ℤ by }
    requires exact { All (λ term. Divides by term.value) terms.now }
    requires columns { All (λ term. term.column < 65536) terms.now }
    requires sizes { All (λ term. IsWithin (2 ^ 44) term.value) terms.now }
    ensures { IfOk result (λ divided. IsDividedTerms by terms.now (shown_terms divided.items)) }
{
    let mut divided = Vec::with_capacity(alloc, terms.len())?;
    for term in terms {
        divided.push(stored_term(term.column, exact_quotient(term.value, by)))?;
    }
    Ok(divided)
}

// A row with its right side, divided by its greatest common divisor.
pub fn divided_row(
    alloc: Global,
    kind: RowKind,
    terms: &[Term],
    right: i128,
) -> Result<StoredRow, NoMemory>
    requires columns { All (λ term. term.column < 65536) terms.now }
    requires sizes { AllWithin (2 ^ 44) (right ∷ map (λ term. term.value) terms.now) }
    ensures { IfOk result (λ row. IsDividedRow (record { kind = kind; terms = terms.now; right = right }) (shown row)) }
{
    let by = row_divisor(terms, right);
    Ok(StoredRow {
        kind,
        terms: divided_terms(alloc, terms, by)?,
        right: exact_quotient(right, by),
    })
}

// A cost, divided by a number that divides all its numbers.
pub fn divided_numbers(alloc: Global, cost: &[i128], by: i128) -> Result<Nums, NoMemory>
    requires positive { pos 0 <ℤ by }
    requires exact { (k : ℕ) → k < length cost.now → Divides by (number_at cost.now k) }
    requires sizes { AllWithin (2 ^ 44) cost.now }
    ensures { IfOk result (IsDividedList by cost.now) }
{
    let mut divided = Nums::new(alloc);
    for number in cost {
        divided.push(exact_quotient(*number, by))?;
    }
    Ok(divided)
}

// The number by which a cost is divided.
pub fn cost_divisor(cost: &[i128]) -> i128
    requires { AllWithin (2 ^ 44) cost.now }
    ensures { IsDivisorFor (length cost.now) (number_at cost.now) result }
{
    divisor_from(common_divisor_of_cost(cost))
}
