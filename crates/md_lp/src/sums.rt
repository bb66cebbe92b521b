//! Sums over the terms of a row, and over lists of numbers.
ghost use Rattle.std.specs.Prelude.{◌≡◌, ℕ, pos, ◌+◌, ◌-◌, ◌*◌, ◌^◌, ◌<◌, ◌≤◌, ◌+ℤ◌, ◌*ℤ◌, length, unsigned_abs, All};
ghost use Rattle.md_math.specs.Lists.{number_at};
ghost use Rattle.md_math.specs.Sizes.{IsWithin, AllWithin};
ghost use Rattle.md_math.specs.Sums.{dot, total_by};
ghost use Rattle.md_lp.specs.Runs.{AddsRow};
ghost use Rattle.md_lp.specs.Shape.{IsAscending, HasPlaces, column_in};
ghost use Rattle.md_lp.specs.Stored.{shown_terms};

use crate::places::from_column;
use crate::stored_term::StoredTerm;
use md_num::{Nums, add_product};

// The sum of the terms, each value times the number of its column.
pub fn sum_of_terms(terms: &[StoredTerm], numbers: &Nums) -> i128
    requires few { length numbers.now ≤ 65536 }
    requires places { HasPlaces (length numbers.now) (shown_terms terms.now) }
    requires values { All (λ term. IsWithin (2 ^ 44) term.value) (shown_terms terms.now) }
    requires sizes { AllWithin (2 ^ 62 - 1) numbers.now }
    ensures { result ≡ total_by (λ term. term.value *ℤ number_at numbers.now term.column) (shown_terms terms.now) }
{
    let mut sum = 0;
    for term in terms {
        sum = add_step(sum, term.value(), numbers.get(term.column() as usize));
    }
    sum
}

// The sum of the products of two lists.
pub fn sum_of_products(left: &Nums, right: &Nums) -> i128
    requires few { length left.now ≤ 65536 }
    requires same { length right.now ≡ length left.now }
    requires left_sizes { AllWithin (2 ^ 44) left.now }
    requires right_sizes { AllWithin (2 ^ 62 - 1) right.now }
    ensures { result ≡ dot (length left.now) (number_at left.now) (number_at right.now) }
{
    let mut sum = 0;
    for place in 0..left.len() {
        sum = add_product(sum, left.get(place), right.get(place));
    }
    sum
}

// Adds, to each sum, the coefficient of its column times the weight of the row. The sums are those of columns from `first` on.
pub fn add_row(terms: &[StoredTerm], first: u32, weights: &[i128], row: usize, sums: &mut [i128])
    requires ascending { IsAscending (shown_terms terms.now) }
    requires values { All (λ term. IsWithin (2 ^ 44) term.value) (shown_terms terms.now) }
    requires row { row < length weights.now }
    requires weight { IsWithin (2 ^ 62 - 1) (number_at weights.now row) }
    requires room { AllWithin (2 ^ 124) sums.old }
    ensures { AddsRow (shown_terms terms.now) first (number_at weights.now row) sums.old sums.new }
{
    if weights[row] == 0 {
        return;
    }
    add_terms(from_column(terms, first), first, weights, row, sums)
}

// The same, where no term stands before the column `first`. The weight is read from its list for each term: so the machine sees its 64 bits beside those of the value, and needs one multiplication.
#[inline(never)]
fn add_terms(terms: &[StoredTerm], first: u32, weights: &[i128], row: usize, sums: &mut [i128])
    requires ascending { IsAscending (shown_terms terms.now) }
    requires from { (k : ℕ) → k < length terms.now → first ≤ column_in (shown_terms terms.now) k }
    requires values { All (λ term. IsWithin (2 ^ 44) term.value) (shown_terms terms.now) }
    requires row { row < length weights.now }
    requires weight { IsWithin (2 ^ 62 - 1) (number_at weights.now row) }
    requires room { AllWithin (2 ^ 124) sums.old }
    ensures { AddsRow (shown_terms terms.now) first (number_at weights.now row) sums.old sums.new }
{
    for term in terms {
        let place = (term.column() - first) as usize;
        if place >= sums.len() {
            break;
        }
        sums[place] = add_step(sums[place], term.value(), weights[row]);
    }
}

// Makes each sum 0.
pub fn clear(sums: &mut [i128])
    ensures { (k : ℕ) → k < length sums.new → number_at sums.new k ≡ pos 0 }
{
    for sum in sums.iter_mut() {
        *sum = 0;
    }
}

// A sum with a coefficient times a number. Both have 64 bits, so that one multiplication of the machine serves.
#[inline]
fn add_step(sum: i128, value: i64, number: i128) -> i128
    requires value { IsWithin (2 ^ 44) value }
    requires number { IsWithin (2 ^ 62 - 1) number }
    requires room { unsigned_abs sum + unsigned_abs value * unsigned_abs number < 2 ^ 126 }
    ensures { result ≡ sum +ℤ value *ℤ number }
{
    sum + i128::from(value) * i128::from(number as i64)
}
