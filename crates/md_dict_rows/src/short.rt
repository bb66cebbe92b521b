//! Quotients of a combination whose numbers have 63 bits.
ghost use Rattle.std.specs.Prelude.{◌≡◌, ◌+◌, ◌-◌, ◌*◌, ◌^◌, ◌<◌, ◌≤◌, pos, ◌-ℤ◌, ◌*ℤ◌, ◌<ℤ◌, length, IfSome, unsigned_abs};
ghost use Rattle.std.specs.Int.{cast_signed, int_wrap, w64};
ghost use Rattle.md_math.specs.Sizes.{AllWithin, IsWithin};
ghost use Rattle.md_dict_rows.specs.Combination.{IsCombination};
ghost use Rattle.md_dict_division.specs.Inverses.{IsInverseOf};
ghost use Rattle.md_dict_rows.specs.Reduce.{AreDivided, AreShort, IsGreatestSize};

use crate::combination::Combination;
use md_dict_division::QuickDivider;

// Writes 0 at all places.
pub fn clear(numbers: &mut [i64])
    ensures length { length numbers.new ≡ length numbers.old }
    ensures zero { AllWithin 0 numbers.new }
{
    for place in 0..numbers.len() {
        numbers[place] = 0;
    }
}

// The difference of two products, `multiplier * own - factor * taken`, in 64 bits.
pub fn mixed_bits(multiplier: u64, own: i64, factor: u64, taken: i64) -> u64
    ensures { cast_signed w64 result ≡ int_wrap w64 (cast_signed w64 multiplier *ℤ own -ℤ cast_signed w64 factor *ℤ taken) }
{
    let first = multiplier.wrapping_mul(own.cast_unsigned());
    let second = factor.wrapping_mul(taken.cast_unsigned());
    first.wrapping_sub(second)
}

// Writes quotients at all places alike, and answers their greatest size where they are right, but that at the place of the pivot. It never ends early, so that several places can be taken at a time.
// A quotient is right where it is small enough and no bit of it is lost.
// In 64 bits, the difference of two products is multiplied by the inverse where their first factors are, which stay the same at all places.
#[inline(never)]
pub fn write_shortly(
    combination: &Combination,
    own: &[i64],
    taken: &[i64],
    quick: &QuickDivider,
    fresh: &mut [i64],
) -> Option<u64>
    requires combination { IsCombination combination.now own.now taken.now }
    requires short { AreShort combination.now own.now taken.now }
    requires positive { pos 0 <ℤ quick.now.value }
    requires size { IsWithin (2 ^ 63 - 1) quick.now.value }
    requires inverse { IsInverseOf quick.now.value quick.now.guess }
    requires length { length fresh.old ≡ length own.now }
    ensures divided { IfSome result (λ _. AreDivided combination.now own.now taken.now quick.now.value fresh.new (length own.now)) }
    ensures greatest { IfSome result (IsGreatestSize (length own.now) fresh.new) }
    ensures within { IfSome result (λ _. AllWithin quick.now.guess.most fresh.new) }
    ensures length { length fresh.new ≡ length fresh.old }
{
    let guess = quick.guess;
    let multiplier = guess.bits(combination.multiplier);
    let factor = guess.bits(combination.factor);
    let mut lost = 0;
    let mut greatest = 0u64;
    for place in 0..fresh.len() {
        let bits = mixed_bits(multiplier, own[place], factor, taken[place]);
        let quotient = guess.of_bits(bits);
        lost |= bits;
        greatest = greatest.max(quotient.unsigned_abs());
        fresh[place] = quotient;
    }
    if guess.loses(lost) || greatest > quick.short_most() {
        return None;
    }
    Some(greatest)
}
