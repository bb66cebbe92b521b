//! Fractions of at most 62 bits.
ghost use Rattle.std.specs.Prelude.{◌≡◌, ◌^◌, ◌<◌, pos, ◌*ℤ◌, ◌<ℤ◌, MatchOption, unsigned_abs};
ghost use Rattle.md_require.specs.Prices.{IsLongOf, IsShortOf};
ghost use Rattle.md_require.specs.Shadows.{IsShort};

use md_num::Frac;

/// The product of two numbers over a third one, in least terms, where it has at most 62 bits.
pub(crate) fn short_product(left: i128, right: i128, den: i128) -> Option<Frac>
    requires positive { pos 0 <ℤ den }
    requires left_size { unsigned_abs left < 2 ^ 126 }
    requires right_size { unsigned_abs right < 2 ^ 126 }
    requires den_size { unsigned_abs den < 2 ^ 126 }
    ensures { MatchOption result (IsLongOf (left *ℤ right) den) (IsShortOf (left *ℤ right) den) }
{
    let first = Frac::reduced(left, den);
    let second = Frac::reduced(right, first.den);
    short(first.num, second.num, second.den)
}

// The product of two numbers over a third one as it stands, where both numbers have at most 62 bits.
fn short(left: i128, right: i128, den: i128) -> Option<Frac>
    ensures { MatchOption result (¬ IsShort (record { num = left *ℤ right; den = den })) (λ fraction. (fraction ≡ record { num = left *ℤ right; den = den }) × IsShort fraction) }
{
    let num = left.checked_mul(right)?;
    if num.unsigned_abs() >= 1 << 62 {
        return None;
    }
    if den.unsigned_abs() >= 1 << 62 {
        return None;
    }
    Some(Frac { num, den })
}
