//! What a unit of the bound of each condition brings the objective, or costs it.
ghost use Rattle.std.specs.Prelude.{ℕ, ℤ, ◌^◌, IfOk, IsTrue, ◌↔◌, ◌≡◌};
ghost use Rattle.md_math.specs.Sizes.{IsWithin};
ghost use Rattle.md_num.specs.declared.frac.Frac.{Frac};
ghost use Rattle.md_setting.specs.Rows.{column_count};
ghost use Rattle.md_mech.specs.declared.mechanism.Mechanism.{Mechanism};
ghost use Rattle.md_lp.specs.Divided.{IsDivisorFor};
ghost use Rattle.md_rows.specs.ProgramOf.{cost_of};
ghost use Rattle.md_cert.specs.Fitting.{IsDenominator};
ghost use Rattle.md_parts.specs.Fitting.{IsBoundOver};
ghost use Rattle.md_question.specs.declared.finding.Finding.TheVariants.{Optimal};
ghost use Rattle.md_question_check.specs.declared.verdict.Verdict.TheVariants.{Valid};
ghost use Rattle.md_question_check.specs.Verdicts.{IsVerdictOn};
ghost use Rattle.md_require.specs.Amounts.{amounts_of};
ghost use Rattle.md_require.specs.Limits.{AreConditionsFor, IsConditionFor};
ghost use Rattle.md_require.specs.RequireQuestion.{require_question, require_rows};
ghost use Rattle.md_require.specs.Shadows.{AreDividedBy, AreFirm, AreShadows, AreShadowsBy, IsToldShadow, priced};

use crate::Condition;
use crate::bounds::at_most;
use crate::divisors::condition_divisor;
use crate::fractions::short_product;
use crate::price::{Price, price_of};
use md_cert::Bound;
use md_num::{Frac, NoMemory, product};
use md_rows::rows_of;
use md_setting::Setting;
use std::alloc::Global;

/// The shadow of each condition, in their order, by the multipliers of an optimal answer: what one unit of the bound brings the
/// objective (where negative: costs it), as a fraction in least terms. It is not told where a row of the condition has a face
/// multiplier, or where a number of the fraction has more than 62 bits, and else it is. Nothing but want of memory is an error.
pub fn shadows(
    alloc: Global,
    setting: &Setting,
    conditions: &[Condition],
    bound: &Bound,
) -> Result<Vec<Option<Frac>>, NoMemory>
    requires conditions { AreConditionsFor setting.now conditions.now }
    requires bound { IsBoundOver (require_rows setting.now conditions.now) bound.now }
    ensures told { IfOk result (λ shadows. AreShadowsBy setting.now conditions.now bound.now shadows.items) }

    // Where the answer with these multipliers is valid: wherever the bounds move to, no mechanism has a greater objective than its
    // mechanism and what the shadows say of the moves; and the shadow of a condition that does not bind is 0.
    ensures law { IfOk result (λ shadows. (value : Frac) (m : Mechanism) → IsVerdictOn (require_question setting.now conditions.now) (Optimal value m bound.now) Valid → AreShadows setting.now conditions.now m shadows.items) }
{
    let _weight = setting.total();
    told_shadows(alloc, setting, conditions, bound)
}

// The same, by the multipliers alone.
fn told_shadows(
    alloc: Global,
    setting: &Setting,
    conditions: &[Condition],
    bound: &Bound,
) -> Result<Vec<Option<Frac>>, NoMemory>
    requires conditions { AreConditionsFor setting.now conditions.now }
    requires bound { IsBoundOver (require_rows setting.now conditions.now) bound.now }
    ensures { IfOk result (λ shadows. AreShadowsBy setting.now conditions.now bound.now shadows.items) }
{
    let lp = rows_of(alloc, setting)?;
    let factor = lp.cost_factor();
    let mut first = lp.rows();
    let mut shadows = Vec::new(alloc);
    for condition in conditions {
        let by = condition_divisor(alloc, setting, condition)?;
        let price = price_of(setting, condition.measured, bound, first);
        shadows.push(shadow(setting, condition, bound.den, factor, by, price))?;
        first = price.row;
    }
    Ok(shadows)
}

// The shadow of a condition, by what its multipliers come to, their denominator, and the numbers by which the cost and the rows of the
// condition were divided.
fn shadow(
    setting: &Setting,
    condition: &Condition,
    over: i128,
    factor: i128,
    by: i128,
    price: Price,
) -> Option<Frac>
    requires condition { IsConditionFor setting.now condition.now }
    requires over { IsDenominator over }
    requires factor { IsDivisorFor (column_count setting.now) (cost_of setting.now) factor }
    requires factor_size { IsWithin (2 ^ 44) factor }
    requires by { AreDividedBy setting.now condition.now by }
    requires by_size { IsWithin (2 ^ 44) by }
    requires sum_size { IsWithin (2 ^ 94) price.sum }
    ensures { (main face : ℕ → ℤ) → price.sum ≡ priced setting.now main (amounts_of setting.now condition.now.measured) → (IsTrue price.firm ↔ AreFirm face (amounts_of setting.now condition.now.measured)) → IsToldShadow setting.now condition.now over main face result }
{
    if !price.firm {
        return None;
    }
    let scale = product(factor, at_most(condition.side, condition.den));
    short_product(
        scale,
        price.sum,
        product(over, product(setting.total(), by)),
    )
}
