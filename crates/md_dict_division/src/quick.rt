//! Quotients of many numbers by one of 63 bits, guessed by one multiplication.
ghost use Rattle.std.specs.Prelude.{◌≡◌, ◌*◌, ◌%◌, ◌^◌, ◌<◌, ◌≤◌, ◌-◌, pos, ◌*ℤ◌, ◌<ℤ◌, IfSome, IsFalse, IsTrue, unsigned_abs};
ghost use Rattle.std.specs.Int.{cast_signed, cast_unsigned, w64};
ghost use Rattle.md_math.specs.Sizes.{IsWithin};

use crate::divider::Divider;
use crate::words::{is_within, lowest_bits, lowest_half};

/// How a quotient is guessed by one multiplication, and how large it may be.
#[derive(Clone, Copy)]
pub struct Guess {
    pub shift: u32,
    pub inverse: u64,
    pub most: u64,
}

impl Guess {
    ghost use Rattle.md_dict_division.specs.Inverses.{EndsInZeros, IsInverseOf};

    // A guess at the quotient of a number: right where the number can be divided and the quotient has few enough bits.
    fn quotient(&self, x: i128) -> i64 {
        self.of_bits(lowest_bits(x.cast_unsigned()).wrapping_mul(self.inverse))
    }

    /// The product of a number with the inverse, in 64 bits.
    pub fn bits(&self, x: i64) -> u64
        ensures { result ≡ cast_unsigned w64 x * self.now.inverse % 2 ^ 64 }
    {
        x.cast_unsigned().wrapping_mul(self.inverse)
    }

    /// The quotient that such a product gives. None of its bits is lost where the lowest ones are 0.
    pub fn of_bits(&self, bits: u64) -> i64
        ensures { self.now.shift < 64 → EndsInZeros self.now.shift bits → pos (2 ^ self.now.shift) *ℤ result ≡ cast_signed w64 bits }
    {
        bits.cast_signed() >> (self.shift % 64)
    }

    /// Whether a bit is lost of what such a product gives, or of several that are joined.
    pub fn loses(&self, bits: u64) -> bool
        ensures { IsFalse result → EndsInZeros self.now.shift bits }
    {
        bits.trailing_zeros() < self.shift
    }

    // Whether it is right by a number wherever no bit is lost: where the number is a power of 2 times one whose product with the inverse is 1 in 64 bits.
    fn inverts(&self, value: i64) -> bool
        requires { pos 0 <ℤ value }
        ensures { IsTrue result → IsInverseOf value self.now }
    {
        if self.shift >= 64 {
            return false;
        }
        let size = value.unsigned_abs();
        let odd = size >> self.shift;
        if odd << self.shift != size {
            return false;
        }
        odd.wrapping_mul(self.inverse) == 1
    }
}

/// A positive number of 63 bits by which many are divided, with what its odd part is to be multiplied by to give 1 in 32 bits. A quotient that is guessed counts only where it is right and no larger than it may be.
#[derive(Clone, Copy)]
pub struct QuickDivider {
    pub value: i64,
    pub half_inverse: u32,
    pub guess: Guess,
}

// How far a number is above the least one of a size, which is at most twice the size for numbers of at most that size alone.
fn from_least(x: i64, size: u64) -> u64
    requires { size ≤ 2 ^ 62 }
    ensures { result ≤ 2 * size → unsigned_abs x ≤ size }
{
    x.cast_unsigned().wrapping_add(size)
}

// The greatest number of 63 bits, by which quotients can be guessed.
const GREATEST_DIVISOR: u128 = i64::MAX as u128;

impl QuickDivider {
    ghost use Rattle.md_dict_division.specs.Inverses.{IsQuick};

    /// The divider by a number, where it has 63 bits and its inverse is right, for quotients within a limit.
    pub fn new(divider: &Divider, most: u64) -> Option<QuickDivider>
        requires positive { pos 0 <ℤ divider.now.value }
        requires size { unsigned_abs divider.now.value < 2 ^ 126 }
        ensures { IfSome result (IsQuick divider.now.value most) }
    {
        if !is_within(divider.value, GREATEST_DIVISOR) {
            return None;
        }
        let value = divider.value as i64;
        let guess = Guess {
            shift: divider.shift,
            inverse: divider.inverse,
            most,
        };
        if !guess.inverts(value) {
            return None;
        }
        Some(QuickDivider {
            value,
            half_inverse: lowest_half(divider.inverse),
            guess,
        })
    }

    /// The quotient of a number, where the guess is right. A loop that writes numbers gives a copy of the divider's own guess, so that it is not read at each of them.
    pub fn quotient(&self, guess: &Guess, x: i128) -> Option<i64>
        requires size { IsWithin (2 ^ 63 - 1) self.now.value }
        requires most { guess.now.most ≤ 2 ^ 62 }
        ensures { IfSome result (λ q. (self.now.value *ℤ q ≡ x) × (unsigned_abs q ≤ guess.now.most)) }
    {
        let quotient = guess.quotient(x);
        if from_least(quotient, guess.most) > 2 * guess.most {
            return None;
        }
        if i128::from(self.value) * i128::from(quotient) != x {
            return None;
        }
        Some(quotient)
    }

    /// The greatest size of a quotient that it may answer, and whose product with the divisor has 63 bits.
    pub fn short_most(&self) -> u64
        requires value { IsWithin (2 ^ 63 - 1) self.now.value }
        requires positive { pos 0 <ℤ self.now.value }
        ensures most { result ≤ self.now.guess.most }
        ensures product { result * unsigned_abs self.now.value < 2 ^ 63 }
    {
        let greatest = i64::MAX.unsigned_abs() / self.value.unsigned_abs();
        greatest.min(self.guess.most)
    }
}
