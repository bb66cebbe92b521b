//! What the rows of conditions are divided by.
ghost use Rattle.std.specs.Prelude.{ℕ, suc, ◌<◌, ◌^◌, ℤ, ◌∷◌, IfOk, length, map, unsigned_abs};
ghost use Rattle.md_math.specs.Divisors.{IsGcdOf};
ghost use Rattle.md_math.specs.Lists.{number_at};
ghost use Rattle.md_math.specs.Sizes.{AllWithin, IsWithin};
ghost use Rattle.md_lp.specs.declared.row_kind.RowKind.TheVariants.{AtMost};
ghost use Rattle.md_lp.specs.Divided.{IsDivisorFor};
ghost use Rattle.md_lp.specs.Shape.{HasPlaces};
ghost use Rattle.md_forms.specs.Built.{IsWritten};
ghost use Rattle.md_forms.specs.Forms.{Form, number_of};
ghost use Rattle.md_require.specs.Limits.{IsConditionFor, IsNarrowFor};
ghost use Rattle.md_require.specs.Named.{IsInside, named};
ghost use Rattle.md_require.specs.Shadows.{AreDividedBy, IsDividedBy};

use crate::Condition;
use crate::amount::{Amount, amount_at};
use crate::bounds::{at_most, bound};
use crate::program::scaled;
use crate::terms::amount_terms;
use md_lp::Term;
use md_num::{NoMemory, gcd};
use md_setting::Setting;
use std::alloc::Global;

/// The number by which each row of a condition is divided: that of its first row, since all have the same one.
pub(crate) fn condition_divisor(
    alloc: Global,
    setting: &Setting,
    condition: &Condition,
) -> Result<i128, NoMemory>
    requires { IsConditionFor setting.now condition.now }
    ensures divisor { IfOk result (AreDividedBy setting.now condition.now) }
    ensures size { IfOk result (IsWithin (2 ^ 44)) }
{
    for rank in 0..setting.space().profiles() {
        if let Some(amount) = amount_at(setting, condition.measured, rank) {
            return amount_divisor(alloc, setting, condition, amount);
        }
    }
    Ok(1)
}

// The number by which the row of an amount of a condition is divided.
fn amount_divisor(
    alloc: Global,
    setting: &Setting,
    condition: &Condition,
    amount: Amount,
) -> Result<i128, NoMemory>
    requires condition { IsConditionFor setting.now condition.now }
    requires inside { IsInside setting.now amount }
    requires narrow { IsNarrowFor setting.now condition.now (named setting.now amount) }
    ensures divisor { IfOk result (λ by. IsDividedBy setting.now condition.now by (named setting.now amount)) }
    ensures size { IfOk result (IsWithin (2 ^ 44)) }
{
    let scaled = scaled(setting, condition, amount);
    let terms = amount_terms(alloc, setting, &scaled)?;
    let right = at_most(condition.side, bound(setting, condition, amount));
    Ok(row_divisor(&terms, right))
}

// The number by which a row of these terms and this right side is divided: 1 where all its numbers are 0.
fn row_divisor(terms: &[Term], right: i128) -> i128
    requires { AllWithin (2 ^ 44) (right ∷ map (λ term. term.value) terms.now) }
    ensures divisor { (n : ℕ) (form : Form) → HasPlaces n terms.now → IsWritten form AtMost terms.now right → IsDivisorFor (suc n) (number_of form) result }
    ensures size { IsWithin (2 ^ 44) result }
{
    divisor_from(common_divisor(terms, right))
}

// The number by which numbers with this greatest common divisor are divided.
fn divisor_from(common: i128) -> i128
    ensures { (n : ℕ) (f : ℕ → ℤ) → IsGcdOf n f common → IsDivisorFor n f result }
{
    if common == 0 { 1 } else { common }
}

// The greatest common divisor of a row's numbers.
fn common_divisor(terms: &[Term], right: i128) -> i128
    requires { AllWithin (2 ^ 44) (right ∷ map (λ term. term.value) terms.now) }
    ensures { let numbers = right ∷ map (λ term. term.value) terms.now in IsGcdOf (length numbers) (number_at numbers) result }
{
    let mut common = gcd(0, right);
    for term in terms {
        common = gcd(common, term.value);
    }
    common
}
