//! Fractions brought over one denominator.
ghost use Rattle.std.specs.Prelude.{◌≡◌, ℕ, ◌-◌, ◌^◌, ◌<◌, ℤ, pos, ◌<ℤ◌, length, IfOk, MatchOption};
ghost use Rattle.md_math.specs.Divisors.{Divides};
ghost use Rattle.md_math.specs.Lists.{number_at, list_to};
ghost use Rattle.md_math.specs.Sizes.{IsWithin};
ghost use Rattle.md_iron.specs.Shares.{AreLeastFractions, AreOver, AreShares, IsDenominatorOf, IsLeastDenominatorOf, IsLeastFraction, IsShare};

use crate::multiples::{common_multiple, is_short, short_product};
use md_cert::Bound;
use md_num::{Frac, NoMemory, Nums, exact_quotient};
use std::alloc::Global;

/// Multipliers that are fractions in least terms, over their least common denominator, and face multipliers that are 0; none
/// where some number has more than 62 bits.
pub(crate) fn over_one(alloc: Global, fractions: &[Frac]) -> Result<Option<Bound>, NoMemory>
    requires { AreLeastFractions fractions.now }
    ensures none { IfOk result (λ bound. MatchOption bound ((over : ℤ) (numbers : ℕ → ℤ) → ¬ AreOver fractions.now over numbers) (λ b. AreOver fractions.now b.den (number_at b.main))) }
    ensures least { IfOk result (λ bound. MatchOption bound (Unit {0}) (λ b. IsLeastDenominatorOf (length fractions.now) fractions.now b.den)) }
    ensures main { IfOk result (λ bound. MatchOption bound (Unit {0}) (λ b. length b.main ≡ length fractions.now)) }
    ensures face { IfOk result (λ bound. MatchOption bound (Unit {0}) (λ b. b.face ≡ list_to (length fractions.now) (λ _. pos 0))) }
{
    let Some(den) = common_denominator(fractions) else {
        return Ok(None);
    };
    let Some(main) = shares(alloc, fractions, den)? else {
        return Ok(None);
    };
    Ok(Some(Bound {
        den,
        main,
        face: zeros(alloc, fractions.len())?,
    }))
}

// So many zeros.
fn zeros(alloc: Global, count: usize) -> Result<Nums, NoMemory>
    ensures { IfOk result (λ zeros. zeros ≡ list_to count (λ _. pos 0)) }
{
    let mut zeros = Nums::new(alloc);
    for _place in 0..count {
        zeros.push(0)?;
    }
    Ok(zeros)
}

// The least common denominator, where it has at most 62 bits.
fn common_denominator(fractions: &[Frac]) -> Option<i128>
    requires { AreLeastFractions fractions.now }
    ensures { MatchOption result ((over : ℤ) → IsWithin (2 ^ 62 - 1) over → ¬ IsDenominatorOf (length fractions.now) fractions.now over) (λ over. IsLeastDenominatorOf (length fractions.now) fractions.now over × IsWithin (2 ^ 62 - 1) over) }
{
    let mut over = 1;
    for k in 0..fractions.len() {
        let Some(multiple) = common_multiple(over, fractions[k].den) else {
            return None;
        };
        over = multiple;
    }
    Some(over)
}

// All fractions over a denominator, where they have at most 62 bits.
fn shares(alloc: Global, fractions: &[Frac], over: i128) -> Result<Option<Nums>, NoMemory>
    requires fractions { AreLeastFractions fractions.now }
    requires over { IsDenominatorOf (length fractions.now) fractions.now over }
    requires short { IsWithin (2 ^ 62 - 1) over }
    ensures shares { IfOk result (λ shares. MatchOption shares ((numbers : ℕ → ℤ) → ¬ AreShares (length fractions.now) fractions.now over numbers) (λ main. AreShares (length fractions.now) fractions.now over (number_at main))) }
    ensures length { IfOk result (λ shares. MatchOption shares (Unit {0}) (λ main. length main ≡ length fractions.now)) }
{
    let mut main = Nums::new(alloc);
    for k in 0..fractions.len() {
        let Some(number) = share(fractions[k], over) else {
            return Ok(None);
        };
        main.push(number)?;
    }
    Ok(Some(main))
}

// A fraction over a denominator, where that has at most 62 bits.
fn share(fraction: Frac, over: i128) -> Option<i128>
    requires fraction { IsLeastFraction fraction }
    requires positive { pos 0 <ℤ over }
    requires divides { Divides fraction.den over }
    requires short { IsWithin (2 ^ 62 - 1) over }
    ensures { MatchOption result ((number : ℤ) → ¬ IsShare fraction over number) (λ number. IsShare fraction over number) }
{
    if !is_short(fraction.num) {
        return None;
    }
    short_product(exact_quotient(over, fraction.den), fraction.num)
}
