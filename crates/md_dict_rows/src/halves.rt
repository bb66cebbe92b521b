//! Quotients of a combination whose numbers have 32 bits.
ghost use Rattle.std.specs.Prelude.{◌≡◌, ◌-◌, ◌%◌, ◌^◌, ◌-ℤ◌, ◌*ℤ◌, ℤ, pos, List, length, replicate, IfSome, IsTrue};
ghost use Rattle.md_math.specs.Sizes.{AllWithin, IsWithin};
ghost use Rattle.md_dict_rows.specs.Halves.{IsShort};
ghost use Rattle.md_dict_rows.specs.Combination.{IsCombination};
ghost use Rattle.md_dict_rows.specs.Reduce.{AreDivided, IsGreatestSize, KeepsSizes};

use crate::combination::Combination;
use crate::short::mixed_bits;
use md_dict_division::{QuickDivider, lowest_half};

// The number that the lowest 32 bits are.
fn low(x: i64) -> i64
    ensures short { IsShort result }
    ensures same { IsShort x → result ≡ x }
{
    i64::from(lowest_half(x.cast_unsigned()).cast_signed())
}

// The difference of two products, `a * b - c * d`, where b counts by its lowest 32 bits.
fn cross(a: i64, b: i64, c: i64, d: i64) -> i64
    requires a { IsWithin (2 ^ 31 - 1) a }
    requires c { IsWithin (2 ^ 31 - 1) c }
    requires d { IsWithin (2 ^ 31 - 1) d }
    ensures { IsShort b → result ≡ a *ℤ b -ℤ c *ℤ d }
{
    mixed_bits(
        low(a).cast_unsigned(),
        low(b),
        low(c).cast_unsigned(),
        low(d),
    )
    .cast_signed()
}

// A guess at the quotient of a number.
fn guess(x: i64, shift: u32, inverse: u32) -> i64
    ensures { IsShort result }
{
    let bits = lowest_half(x.cast_unsigned() >> (shift % 64));
    i64::from(bits.wrapping_mul(inverse).cast_signed())
}

// How far a product is above a number, which is 0 where the number is the product alone.
fn gap(divisor: i64, quotient: i64, x: i64) -> u64
    requires divisor { IsWithin (2 ^ 31 - 1) divisor }
    requires quotient { IsShort quotient }
    ensures { result ≡ 0 → divisor *ℤ quotient ≡ x }
{
    (low(divisor) * quotient).wrapping_sub(x).cast_unsigned()
}

// Writes quotients at all places alike, where all numbers have 32 bits, and answers their greatest size where they are right, but that at the place of the pivot.
// It never ends early, and each number that it multiplies is made in the loop, where it is seen to have 32 bits: so several places can be taken at a time.
// The zero at each place is read, so that the compiler does not move the numbers that it is added to out of the loop, where it would no longer see that they have 32 bits.
#[inline(never)]
pub fn write_by_halves(
    combination: &Combination,
    own: &[i64],
    taken: &[i64],
    zeros: &[i64],
    quick: &QuickDivider,
    fresh: &mut [i64],
) -> Option<u64>
    requires combination { IsCombination combination.now own.now taken.now }
    requires multiplier { IsWithin (2 ^ 31 - 1) combination.now.multiplier }
    requires factor { IsWithin (2 ^ 31 - 1) combination.now.factor }
    requires value { IsWithin (2 ^ 31 - 1) quick.now.value }
    requires own { AllWithin (2 ^ 31 - 1) own.now }
    requires taken { AllWithin (2 ^ 31 - 1) taken.now }
    requires zeros { zeros.now ≡ replicate (length own.now) (pos 0) }
    requires length { length fresh.old ≡ length own.now }
    ensures divided { IfSome result (λ _. AreDivided combination.now own.now taken.now quick.now.value fresh.new (length own.now)) }
    ensures greatest { IfSome result (IsGreatestSize (length own.now) fresh.new) }
    ensures sizes { KeepsSizes (2 ^ 31) fresh.old fresh.new }
{
    let shift = quick.guess.shift % 64;
    let inverse = quick.half_inverse;
    let mut wrong = 0;
    let mut greatest = 0u32;
    for place in 0..fresh.len() {
        let zero = zeros[place];
        let multiplier = combination.multiplier + zero;
        let factor = combination.factor + zero;
        let number = cross(multiplier, own[place], factor, taken[place]);
        let quotient = guess(number, shift, inverse);
        wrong |= gap(quick.value + zero, quotient, number);
        greatest = greatest.max((quotient as i32).unsigned_abs());
        fresh[place] = quotient;
    }
    if wrong != 0 {
        return None;
    }
    Some(u64::from(greatest))
}
