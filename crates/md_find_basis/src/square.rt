//! Whole numbers modulo the square of the prime, and the fractions that they stand for.
use crate::prime::PRIME;
use md_find::FindError;
use std::alloc::Global;

/// The greatest size of a number of a certificate.
pub const GREATEST: u128 = 0x3fff_ffff_ffff_ffff;

// The prime and its square. Twice the product of two numbers of a certificate is less.
const BASE: u128 = PRIME as u128;

const SQUARE: u128 = BASE * BASE;

// How many steps the division of two numbers below the square has at most.
const MOST_STEPS: u32 = 200;

/// The number of two digits to the base of the prime.
pub fn joined(low: u64, high: u64) -> u128 {
    u128::from(high)
        .wrapping_mul(BASE)
        .wrapping_add(u128::from(low))
}

// The product with a number of 62 bits.
fn times(number: u128, factor: u128) -> u128 {
    let low = (number % BASE).wrapping_mul(factor);
    let high = (number / BASE)
        .wrapping_mul(factor)
        .wrapping_add(low / BASE);
    (high % BASE).wrapping_mul(BASE).wrapping_add(low % BASE)
}

/// The whole number that a number stands for, if it is one of a certificate.
pub fn whole(number: u128) -> Option<i128> {
    let opposite = SQUARE.wrapping_sub(number);
    if number <= GREATEST {
        Some(number as i128)
    } else if opposite <= GREATEST {
        Some(-(opposite as i128))
    } else {
        None
    }
}

// The denominator of the fraction that a number stands for, if its numbers are those of a certificate: Euclid's division of the square by the number, stopped at the first rest that is small enough.
fn denominator(number: u128) -> Option<u128> {
    let mut rest = number;
    let mut last = SQUARE;
    let mut factor = 1u128;
    let mut last_factor = 0u128;
    for _ in 0..MOST_STEPS {
        if rest <= GREATEST {
            break;
        }
        let quotient = last / rest;
        let next = last % rest;
        last = rest;
        rest = next;
        let next_factor = factor.saturating_mul(quotient).saturating_add(last_factor);
        last_factor = factor;
        factor = next_factor;
    }
    if factor <= GREATEST {
        Some(factor)
    } else {
        None
    }
}

/// The least common denominator of the fractions that numbers stand for, if it is one of a certificate.
pub fn common_denominator(numbers: &[u128]) -> Option<u128> {
    let mut common = 1;
    for number in numbers {
        let scaled = times(*number, common);
        if whole(scaled).is_none() {
            common = common.checked_mul(denominator(scaled)?)?;
            if common > GREATEST {
                return None;
            }
        }
    }
    Some(common)
}

/// The numerators over a denominator.
///
/// # Errors
/// Where one is none of a certificate; or want of memory.
pub fn numerators(alloc: Global, numbers: &[u128], den: u128) -> Result<Vec<i128>, FindError> {
    let mut whole_numbers = Vec::new(alloc);
    for number in numbers {
        let Some(numerator) = whole(times(*number, den)) else {
            return Err(FindError::TooLong);
        };
        whole_numbers.push(numerator)?;
    }
    Ok(whole_numbers)
}
