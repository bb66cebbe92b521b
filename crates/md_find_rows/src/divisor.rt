//! A number by which all numbers of a row are divided.
ghost use Rattle.std.specs.Prelude.{◌<◌, ◌^◌, IfSome};

use crate::narrow::NarrowDivisor;
use md_find_numbers::gcd;

/// The greatest size of 126 bits.
pub const GREATEST: u128 = 0x3fff_ffff_ffff_ffff_ffff_ffff_ffff_ffff;

/// A positive number by which many are divided: how often 2 divides it, the bits below that, what its odd part is to be multiplied by to give 1 in 128 bits, and how often the odd part goes into the greatest size.
#[derive(Clone, Copy)]
pub struct Divisor {
    value: u128,
    shift: u32,
    mask: u128,
    inverse: u128,
    most: u128,
}

// The greatest size of 63 bits.
const MOST_NARROW: u128 = 0x7fff_ffff_ffff_ffff;

// The lowest 64 bits of a size.
fn low_bits(size: u128) -> u64 {
    (size & u128::from(u64::MAX)) as u64
}

// What an odd number is multiplied by to give 1 in 128 bits. Twice as many of the lowest bits are right after each step, beginning with five.
fn inverse(odd: u128) -> u128 {
    let mut inverse = odd.wrapping_mul(3) ^ 2;
    for _ in 0..5 {
        let missing = 2u128.wrapping_sub(odd.wrapping_mul(inverse));
        inverse = inverse.wrapping_mul(missing);
    }
    inverse
}

impl Divisor {
    /// The divisor of a value; of 0 it is that of 1.
    pub fn new(value: u128) -> Divisor {
        let shift = value.trailing_zeros() % 128;
        let odd = (value >> shift).max(1);
        Divisor {
            value,
            shift,
            mask: (1u128 << shift).wrapping_sub(1),
            inverse: inverse(odd),
            most: u128::MAX / odd,
        }
    }

    /// The number by which is divided, if it is one by which wide numbers are.
    pub fn for_wide(&self) -> Option<u128>
        ensures positive { IfSome result (λ by. 0 < by) }
        ensures size { IfSome result (λ by. by < 2 ^ 127) }
    {
        if self.value == 0 || self.value > GREATEST {
            None
        } else {
            Some(self.value)
        }
    }

    /// The same in 63 bits, if it has no more.
    pub fn narrow(&self) -> Option<NarrowDivisor> {
        if self.value > MOST_NARROW {
            return None;
        }
        let odd = (low_bits(self.value) >> (self.shift % 64)).max(1);
        Some(NarrowDivisor {
            shift: self.shift % 64,
            mask: low_bits(self.mask),
            inverse: low_bits(self.inverse),
            most: u64::MAX / odd,
        })
    }

    /// Whether it is 1.
    pub fn is_one(&self) -> bool {
        self.value == 1
    }

    /// The quotient of a size that it divides.
    #[inline]
    pub fn exact(&self, size: u128) -> Option<u128> {
        let shift = self.shift % 128;
        let quotient = (size >> shift).wrapping_mul(self.inverse);
        if quotient <= self.most && size & self.mask == 0 {
            Some(quotient)
        } else {
            None
        }
    }

    /// What it has in common with a size.
    pub fn common(&self, size: u128) -> Divisor {
        match self.exact(size) {
            Some(_) => *self,
            None => Divisor::new(gcd(self.value, size)),
        }
    }
}
