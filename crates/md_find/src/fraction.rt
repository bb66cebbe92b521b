//! Fractions in least terms.
ghost use Rattle.std.specs.Prelude.{◌^◌, ◌<◌};

use md_find_numbers::gcd;

/// A fraction by its sign, the size of its numerator, and its denominator.
#[derive(Clone, Copy)]
pub struct Fraction {
    pub negative: bool,
    pub size: u128,
    pub den: u128,
}

/// The greatest size of a number of a certificate.
pub const GREATEST: u128 = 0x3fff_ffff_ffff_ffff;

impl Fraction {
    /// A whole number from 0 on.
    pub fn whole(size: u128) -> Fraction {
        Fraction {
            negative: false,
            size,
            den: 1,
        }
    }

    /// The fraction of two numbers, in least terms.
    pub fn new(num: i128, den: i128) -> Fraction {
        let size = num.unsigned_abs();
        let whole = den.unsigned_abs();
        let common = gcd(size, whole).max(1);
        Fraction {
            negative: num.is_negative(),
            size: size / common,
            den: whole / common,
        }
    }

    /// The fraction, or its negative.
    pub fn turned(&self, turns: bool) -> Fraction {
        Fraction {
            negative: self.negative != turns,
            ..*self
        }
    }

    /// Its numerator over a multiple of its denominator, if it is one of a certificate.
    pub fn over(&self, den: u128) -> Option<i128> {
        let size = den.checked_div(self.den)?.checked_mul(self.size)?;
        if size > GREATEST {
            return None;
        }
        Some(with_sign(self.negative, size))
    }
}

// The number of a size, or its negative.
fn with_sign(negative: bool, size: u128) -> i128
    requires { size < 2 ^ 62 }
{
    if negative {
        -(size as i128)
    } else {
        size as i128
    }
}
