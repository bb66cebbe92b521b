//! Signed whole numbers of up to 256 bits.
ghost use Rattle.std.specs.Prelude.{◌≡◌, ◌+◌, ◌*◌, ◌%◌, ◌^◌, ◌<◌, ◌≤◌, pos, ◌-ℤ◌, ◌*ℤ◌, ◌<ℤ◌, ◌↔◌, IsTrue, IfSome, unsigned_abs};
ghost use Rattle.md_find_numbers.specs.Signed.{signed};

use crate::wide_size::WideSize;
use std::marker::Model;

/// A whole number of up to 256 bits, as the difference of two products is.
#[derive(Drop)]
pub struct WideNumber {
    negative: bool,
    size: WideSize,
}

impl Model for WideNumber {
    ghost use Rattle.std.specs.Prelude.{ℤ};
    ghost use Rattle.md_find_numbers.specs.Signed.{signed};

    ghost Value = { ℤ };

    ghost view = { λ number. signed number.negative number.size };
}

impl WideNumber {
    /// The product of two numbers.
    pub fn product(a: i128, b: i128) -> WideNumber
        ensures value { result ≡ a *ℤ b }
        ensures size { unsigned_abs result ≤ 2 ^ 254 }
    {
        WideNumber {
            negative: a.is_negative() != b.is_negative(),
            size: WideSize::product(a.unsigned_abs(), b.unsigned_abs()),
        }
    }

    /// The difference with another number.
    pub fn minus(&self, other: &WideNumber) -> WideNumber
        requires { unsigned_abs self.now + unsigned_abs other.now < 2 ^ 256 }
        ensures { result ≡ self.now -ℤ other.now }
    {
        if self.negative != other.negative {
            WideNumber {
                negative: self.negative,
                size: self.size.plus(&other.size),
            }
        } else if self.size.is_less(&other.size) {
            WideNumber {
                negative: !self.negative,
                size: other.size.minus(&self.size),
            }
        } else {
            WideNumber {
                negative: self.negative,
                size: self.size.minus(&other.size),
            }
        }
    }

    /// The difference of two products, `a * b - c * d`.
    pub fn cross_difference(a: i128, b: i128, c: i128, d: i128) -> WideNumber
        ensures { result ≡ a *ℤ b -ℤ c *ℤ d }
    {
        let first = WideNumber::product(a, b);
        let second = WideNumber::product(c, d);
        first.minus(&second)
    }

    /// Whether it is 0.
    pub fn is_zero(&self) -> bool
        ensures { IsTrue result ↔ (self.now ≡ pos 0) }
    {
        self.size.is_zero()
    }

    /// Whether it is less than 0.
    pub fn is_negative(&self) -> bool
        ensures { IsTrue result ↔ (self.now <ℤ pos 0) }
    {
        self.negative && !self.size.is_zero()
    }

    /// What is left of its size where it is divided by a number of up to 127 bits.
    pub fn rest(&self, by: u128) -> u128
        requires positive { 0 < by }
        requires size { by < 2 ^ 127 }
        ensures { result ≡ unsigned_abs self.now % by }
    {
        self.size.divided(by).rest
    }

    /// Its quotient by a number of up to 127 bits, where that divides it and the quotient has up to 126 bits.
    pub fn quotient(&self, by: u128) -> Option<i128>
        requires positive { 0 < by }
        requires size { by < 2 ^ 127 }
        ensures value { IfSome result (λ quotient. pos by *ℤ quotient ≡ self.now) }
        ensures size { IfSome result (λ quotient. unsigned_abs quotient < 2 ^ 126) }
    {
        let division = self.size.divided(by);
        if division.rest != 0 {
            return None;
        }
        let size = division.quotient.narrow()?;
        Some(with_sign(self.negative, size))
    }
}

// The number of a size, or its negative.
fn with_sign(is_negative: bool, size: u128) -> i128
    requires { size < 2 ^ 126 }
    ensures { result ≡ signed is_negative size }
{
    if is_negative {
        -(size as i128)
    } else {
        size as i128
    }
}
