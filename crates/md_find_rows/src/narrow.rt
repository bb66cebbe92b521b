//! Numbers of 63 bits and a sign, for rows whose numbers are short.

/// The lowest 64 bits of a number.
#[inline]
pub fn narrow(number: i128) -> i64 {
    let low = (number.cast_unsigned() & u128::from(u64::MAX)) as u64;
    low.cast_signed()
}

/// A divisor of 63 bits, as `Divisor` is one of 127: how often 2 divides it, the bits below that, what its odd part is to be multiplied by to give 1 in 64 bits, and how often the odd part goes into the greatest size.
#[derive(Clone, Copy)]
pub struct NarrowDivisor {
    pub shift: u32,
    pub mask: u64,
    pub inverse: u64,
    pub most: u64,
}

impl NarrowDivisor {
    /// The quotient of a size that it divides.
    #[inline]
    pub fn exact(&self, size: u64) -> Option<u64> {
        let quotient = (size >> (self.shift % 64)).wrapping_mul(self.inverse);
        if quotient <= self.most && size & self.mask == 0 {
            Some(quotient)
        } else {
            None
        }
    }
}
