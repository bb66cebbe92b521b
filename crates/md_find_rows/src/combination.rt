//! How two rows are combined.
use crate::divisor::Divisor;
use crate::narrow::{NarrowDivisor, narrow};
use md_find_numbers::WideNumber;

/// A multiple of one row, less a multiple of another.
#[derive(Clone, Copy)]
pub struct Combination {
    pub multiplier: i128,
    pub factor: i128,
}

/// The most bits of the greater of two products whose difference has 127 bits, and of those whose difference has 63.
pub const SHORT: u32 = 126;

const NARROW: u32 = 62;

/// How many bits a size has.
pub fn bits(size: u128) -> u32 {
    128u32.saturating_sub(size.leading_zeros())
}

impl Combination {
    /// How many bits the greater of the two products has at most, for numbers of so many bits.
    pub fn product_bits(&self, own: u32, taken: u32) -> u32 {
        let first = bits(self.multiplier.unsigned_abs()).saturating_add(own);
        let second = bits(self.factor.unsigned_abs()).saturating_add(taken);
        first.max(second)
    }

    // Whether two numbers are combined in 127 bits.
    fn is_short_at(&self, own: i128, taken: i128) -> bool {
        self.product_bits(bits(own.unsigned_abs()), bits(taken.unsigned_abs())) <= SHORT
    }

    // The multiple of a number of the one row, less that of one of the other.
    fn wide_number(&self, own: i128, taken: i128) -> WideNumber {
        WideNumber::cross_difference(self.multiplier, own, self.factor, taken)
    }

    // The same, where it has 127 bits.
    fn short_number(&self, own: i128, taken: i128) -> i128 {
        let first = self.multiplier.wrapping_mul(own);
        first.wrapping_sub(self.factor.wrapping_mul(taken))
    }

    /// Writes a combined row of numbers of 127 bits, each divided, and answers how many bits they have at most. Where one cannot be divided, its size is told, and 1 where the rows have not one width.
    pub fn write_short(
        &self,
        by: &Divisor,
        own: &[i128],
        taken: &[i128],
        new: &mut [i128],
    ) -> Result<u32, u128> {
        if taken.len() != own.len() || new.len() != own.len() {
            return Err(1);
        }
        let mut sizes = 0;
        for place in 0..own.len() {
            let number = self.short_number(own[place], taken[place]);
            let size = number.unsigned_abs();
            let Some(quotient) = by.exact(size) else {
                return Err(size);
            };
            new[place] = with_sign(number < 0, quotient);
            sizes |= quotient;
        }
        Ok(bits(sizes))
    }

    /// The same with numbers of 63 bits.
    pub fn write_narrow(
        &self,
        by: &NarrowDivisor,
        own: &[i128],
        taken: &[i128],
        new: &mut [i128],
    ) -> Result<u32, u128> {
        if taken.len() != own.len() || new.len() != own.len() {
            return Err(1);
        }
        let multiplier = narrow(self.multiplier);
        let factor = narrow(self.factor);
        let mut sizes = 0;
        for place in 0..own.len() {
            let first = multiplier.wrapping_mul(narrow(own[place]));
            let number = first.wrapping_sub(factor.wrapping_mul(narrow(taken[place])));
            let size = number.unsigned_abs();
            let Some(quotient) = by.exact(size) else {
                return Err(u128::from(size));
            };
            new[place] = i128::from(with_narrow_sign(number < 0, quotient));
            sizes |= quotient;
        }
        Ok(bits(u128::from(sizes)))
    }

    /// Writes a combined row of numbers of 63 bits where the products have so few, and else of 127.
    pub fn write_divided(
        &self,
        by: &Divisor,
        most: u32,
        own: &[i128],
        taken: &[i128],
        new: &mut [i128],
    ) -> Result<u32, u128> {
        if most <= NARROW {
            if let Some(narrow) = by.narrow() {
                return self.write_narrow(&narrow, own, taken, new);
            }
        }
        self.write_short(by, own, taken, new)
    }

    /// The greatest number that divides a given one and all numbers of the combined row. Where the rows have not one width it is 1.
    pub fn common_divisor(&self, first: &Divisor, own: &[i128], taken: &[i128]) -> Divisor {
        if taken.len() != own.len() {
            return Divisor::new(1);
        }
        let mut common = *first;
        for place in 0..own.len() {
            if common.is_one() {
                break;
            }
            common = self.common(&common, own[place], taken[place]);
        }
        common
    }

    // A divisor, made smaller so that it divides a number of the combined row.
    fn common(&self, divisor: &Divisor, own: i128, taken: i128) -> Divisor {
        if own == 0 && taken == 0 {
            return *divisor;
        }
        if self.is_short_at(own, taken) {
            return divisor.common(self.short_number(own, taken).unsigned_abs());
        }
        match divisor.for_wide() {
            Some(by) => divisor.common(self.wide_number(own, taken).rest(by)),
            None => Divisor::new(1),
        }
    }

    // A number of the combined row, divided, if it can be divided and has up to 126 bits. Most are 0 and need no division.
    fn quotient(&self, own: i128, taken: i128, by: &Divisor) -> Option<i128> {
        if own == 0 && taken == 0 {
            return Some(0);
        }
        if self.is_short_at(own, taken) {
            let number = self.short_number(own, taken);
            return Some(with_sign(number < 0, by.exact(number.unsigned_abs())?));
        }
        self.wide_number(own, taken).quotient(by.for_wide()?)
    }

    /// Writes the combined row in the place of the one row, each number divided. It answers how many bits its numbers have at most, if all could be divided and have up to 126.
    pub fn write(&self, by: &Divisor, own: &mut [i128], taken: &[i128]) -> Option<u32> {
        if taken.len() != own.len() {
            return None;
        }
        let mut sizes = 0;
        for place in 0..own.len() {
            let number = self.quotient(own[place], taken[place], by)?;
            own[place] = number;
            sizes |= number.unsigned_abs();
        }
        Some(bits(sizes))
    }

    /// The denominator of the combined row, divided, if it can be divided and has up to 126 bits.
    pub fn den(&self, own: i128, by: &Divisor) -> Option<i128> {
        WideNumber::product(self.multiplier, own).quotient(by.for_wide()?)
    }
}

// The number of a size of 63 bits, or its negative.
#[inline]
fn with_narrow_sign(is_negative: bool, size: u64) -> i64 {
    let number = size.cast_signed();
    if is_negative {
        number.wrapping_neg()
    } else {
        number
    }
}

// The number of a size, or its negative.
#[inline]
fn with_sign(is_negative: bool, size: u128) -> i128 {
    let number = size.cast_signed();
    if is_negative {
        number.wrapping_neg()
    } else {
        number
    }
}
