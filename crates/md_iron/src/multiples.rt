//! Numbers of at most 62 bits, and least common multiples of these.
ghost use Rattle.std.specs.Prelude.{◌≡◌, ◌-◌, ◌^◌, ◌<◌, ◌↔◌, pos, ◌*ℤ◌, ◌<ℤ◌, unsigned_abs, IsTrue, MatchOption};
ghost use Rattle.md_math.specs.Sizes.{IsWithin};
ghost use Rattle.md_iron.specs.Multiples.{HasShortMultiple, IsMultipleOfTwo};

use md_num::{exact_quotient, gcd, product};

/// The size of the greatest number of 62 bits.
const GREATEST: u128 = 4_611_686_018_427_387_903;

/// Whether a number has at most 62 bits.
pub(crate) fn is_short(x: i128) -> bool
    ensures { IsTrue result ↔ IsWithin (2 ^ 62 - 1) x }
{
    x.unsigned_abs() <= GREATEST
}

/// The product of two numbers of at most 62 bits, where it has no more.
pub(crate) fn short_product(a: i128, b: i128) -> Option<i128>
    requires left { IsWithin (2 ^ 62 - 1) a }
    requires right { IsWithin (2 ^ 62 - 1) b }
    ensures { MatchOption result (¬ IsWithin (2 ^ 62 - 1) (a *ℤ b)) (λ x. (x ≡ a *ℤ b) × IsWithin (2 ^ 62 - 1) x) }
{
    let x = product(a, b);
    is_short(x).then_some(x)
}

/// The least common multiple of two positive numbers, where it has at most 62 bits.
pub(crate) fn common_multiple(a: i128, b: i128) -> Option<i128>
    requires left { pos 0 <ℤ a }
    requires right { pos 0 <ℤ b }
    requires left_size { IsWithin (2 ^ 62 - 1) a }
    requires right_size { unsigned_abs b < 2 ^ 126 }
    ensures { MatchOption result (¬ HasShortMultiple a b) (λ x. IsMultipleOfTwo a b x × IsWithin (2 ^ 62 - 1) x) }
{
    let factor = missing_factor(a, b);
    if !is_short(factor) {
        return None;
    }
    short_product(a, factor)
}

// What the first of two numbers is multiplied by to give their least common multiple.
fn missing_factor(a: i128, b: i128) -> i128
    requires left { pos 0 <ℤ a }
    requires right { pos 0 <ℤ b }
    requires left_size { IsWithin (2 ^ 62 - 1) a }
    requires right_size { unsigned_abs b < 2 ^ 126 }
    ensures { IsMultipleOfTwo a b (a *ℤ result) }
{
    exact_quotient(b, gcd(a, b))
}
