//! Numbers by which many are divided, and greatest common divisors.
ghost use Rattle.std.specs.Prelude.{◌≡◌, ◌*◌, ◌^◌, ◌<◌, pos, neg_ℤ, ◌*ℤ◌, ◌<ℤ◌, ◌↔◌, IfSome, IsTrue, MatchOption, if◌then◌else◌, unsigned_abs};
ghost use Rattle.std.specs.Int.{IsGcd};
ghost use Rattle.md_math.specs.Divisors.{Divides, IsGcdOfTwo};

use crate::binary::binary_gcd;
use crate::words::lowest_bits;
use md_num::{exact_quotient, gcd};

/// A positive number by which many are divided, with its lowest 64 bits, how often 2 divides it, and what its odd part is to be multiplied by to give 1 in 64 bits. With these a quotient is guessed by one multiplication; a guess counts only where it is right.
#[derive(Clone, Copy)]
pub struct Divider {
    pub value: i128,
    pub low: u64,
    pub shift: u32,
    pub inverse: u64,
}

impl Divider {
    /// The divider by a number.
    pub fn new(value: i128) -> Divider
        ensures { result.value ≡ value }
    {
        let low = lowest_bits(value.unsigned_abs());
        let shift = low.trailing_zeros() % 64;
        Divider {
            value,
            low,
            shift,
            inverse: inverse(low >> shift),
        }
    }

    /// The divider by a number of 64 bits.
    pub fn short(value: u64) -> Divider
        ensures value { result.value ≡ pos value }
        ensures low { result.low ≡ value }
    {
        let shift = value.trailing_zeros() % 64;
        Divider {
            value: i128::from(value),
            low: value,
            shift,
            inverse: inverse(value >> shift),
        }
    }

    // The product with a number, where it has 128 bits.
    fn product(&self, x: u64) -> Option<u128>
        ensures { IfSome result (λ y. unsigned_abs self.now.value * x ≡ y) }
    {
        let size = self.value.unsigned_abs();
        if size == u128::from(self.low) {
            Some(u128::from(self.low) * u128::from(x))
        } else {
            size.checked_mul(u128::from(x))
        }
    }

    // The quotient of a size, where the guess is right.
    fn guess(&self, size: u128) -> Option<u64>
        ensures { IfSome result (λ q. unsigned_abs self.now.value * q ≡ size) }
    {
        let quotient = lowest_bits(size >> (self.shift % 64)).wrapping_mul(self.inverse);
        if self.product(quotient)? == size {
            Some(quotient)
        } else {
            None
        }
    }

    /// The quotient of a number, where it divides it.
    pub fn exact(&self, x: i128) -> Option<i128>
        requires positive { pos 0 <ℤ self.now.value }
        requires value_size { unsigned_abs self.now.value < 2 ^ 126 }
        requires size { unsigned_abs x < 2 ^ 126 }
        ensures { MatchOption result (¬ Divides self.now.value x) (λ q. self.now.value *ℤ q ≡ x) }
    {
        match self.guess(x.unsigned_abs()) {
            Some(size) => Some(with_sign(x < 0, size)),
            None => quotient(x, self.value),
        }
    }

    /// The quotient of a number that it divides.
    pub fn quotient(&self, x: i128) -> i128
        requires positive { pos 0 <ℤ self.now.value }
        requires value_size { unsigned_abs self.now.value < 2 ^ 126 }
        requires size { unsigned_abs x < 2 ^ 126 }
        requires exact { Divides self.now.value x }
        ensures { self.now.value *ℤ result ≡ x }
    {
        match self.guess(x.unsigned_abs()) {
            Some(size) => with_sign(x < 0, size),
            None => exact_quotient(x, self.value),
        }
    }

    /// Whether it is 1, which divides all.
    pub fn is_one(&self) -> bool
        requires { unsigned_abs self.now.value < 2 ^ 126 }
        ensures { IsTrue result ↔ (self.now.value ≡ pos 1) }
    {
        self.value == 1
    }

    /// The greatest common divisor with another number.
    pub fn common(&self, x: i128) -> Divider
        requires positive { pos 0 <ℤ self.now.value }
        requires value_size { unsigned_abs self.now.value < 2 ^ 126 }
        requires size { unsigned_abs x < 2 ^ 126 }
        ensures divisor { IsGcdOfTwo self.now.value x result.value }
        ensures size { unsigned_abs result.value < 2 ^ 126 }
    {
        if x == 0 {
            return *self;
        }
        match self.guess(x.unsigned_abs()) {
            Some(_) => *self,
            None => Divider::new(common_divisor(self.value, x)),
        }
    }

    // Whether a divider of 64 bits divides a size of 64 bits, as far as a guess tells.
    fn surely_divides(&self, size: u64) -> bool
        requires low { self.now.value ≡ pos self.now.low }
        ensures { IsTrue result → Divides self.now.value (pos size) }
    {
        let quotient = (size >> (self.shift % 64)).wrapping_mul(self.inverse);
        u128::from(self.low) * u128::from(quotient) == u128::from(size)
    }

    /// The greatest common divisor of a divider of 64 bits and a size of 64 bits.
    pub fn short_common(&self, size: u64) -> Divider
        requires low { self.now.value ≡ pos self.now.low }
        requires positive { pos 0 <ℤ self.now.value }
        ensures divisor { IsGcdOfTwo self.now.value (pos size) result.value }
        ensures low { result.value ≡ pos result.low }
    {
        if self.surely_divides(size) {
            return *self;
        }
        Divider::short(binary_gcd(self.low, size))
    }
}

/// The greatest common divisor of two numbers, mostly of 64 bits.
pub fn common_divisor(a: i128, b: i128) -> i128
    requires left { unsigned_abs a < 2 ^ 126 }
    requires right { unsigned_abs b < 2 ^ 126 }
    ensures divisor { IsGcdOfTwo a b result }
    ensures size { unsigned_abs result < 2 ^ 126 }
{
    let first = a.unsigned_abs();
    let second = b.unsigned_abs();
    if second <= u128::from(u64::MAX) {
        return gcd_with_short(first, second as u64) as i128;
    }
    if first <= u128::from(u64::MAX) {
        return gcd_with_short(second, first as u64) as i128;
    }
    gcd(a, b)
}

// The greatest common divisor of a size and one of 64 bits.
fn gcd_with_short(size: u128, short: u64) -> u128
    ensures { IsGcd size short result }
{
    if size <= u128::from(u64::MAX) {
        return u128::from(binary_gcd(size as u64, short));
    }
    if short == 0 {
        return size;
    }
    u128::from(binary_gcd(short, (size % u128::from(short)) as u64))
}

// What an odd number is multiplied by to give 1 in 64 bits. What the product lacks to 1 is squared at each step, so that twice as many of the lowest bits are right, beginning with five.
fn inverse(odd: u64) -> u64 {
    let mut inverse = odd.wrapping_mul(3) ^ 2;
    let mut missing = 1u64.wrapping_sub(odd.wrapping_mul(inverse));
    for _ in 0..4 {
        inverse = inverse.wrapping_mul(missing.wrapping_add(1));
        missing = missing.wrapping_mul(missing);
    }
    inverse
}

// The number of a size, or its negative.
fn with_sign(is_negative: bool, size: u64) -> i128
    ensures { result ≡ (if is_negative then neg_ℤ (pos size) else pos size) }
{
    let number = i128::from(size);
    if is_negative { -number } else { number }
}

// The quotient of a number by one that divides it.
fn quotient(x: i128, divisor: i128) -> Option<i128>
    requires positive { pos 0 <ℤ divisor }
    requires divisor_size { unsigned_abs divisor < 2 ^ 126 }
    requires size { unsigned_abs x < 2 ^ 126 }
    ensures { MatchOption result (¬ Divides divisor x) (λ q. divisor *ℤ q ≡ x) }
{
    if is_multiple(x.unsigned_abs(), divisor.unsigned_abs()) {
        Some(exact_quotient(x, divisor))
    } else {
        None
    }
}

// Whether a size is a multiple of another.
fn is_multiple(size: u128, divisor: u128) -> bool
    requires { 0 < divisor }
    ensures { IsTrue result ↔ Divides (pos divisor) (pos size) }
{
    size % divisor == 0
}
