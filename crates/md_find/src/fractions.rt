//! Lists of fractions, brought over one denominator.
use crate::find_error::FindError;
use crate::fraction::{Fraction, GREATEST};
use md_find_numbers::gcd;
use md_num::Nums;
use std::alloc::Global;

/// Numbers over one denominator.
#[derive(Drop)]
pub struct Numbers {
    pub den: i128,
    pub numbers: Nums,
}

// The least common multiple of two denominators, if it is one of a certificate.
fn with_den(common: u128, den: u128) -> Option<u128> {
    let multiple = common.checked_div(gcd(common, den))?.checked_mul(den)?;
    if multiple > GREATEST {
        return None;
    }
    Some(multiple)
}

// The least common multiple of all denominators, if it is one of a certificate.
fn least_den(fractions: &[Fraction]) -> Option<u128> {
    let mut common = 1;
    for fraction in fractions {
        common = with_den(common, fraction.den)?;
    }
    Some(common)
}

// The numerators over a multiple of all denominators, if all are numbers of a certificate.
fn numerators(alloc: Global, fractions: &[Fraction], den: u128) -> Result<Nums, FindError> {
    let mut numbers = Nums::new(alloc);
    for fraction in fractions {
        let Some(number) = fraction.over(den) else {
            return Err(FindError::TooLong);
        };
        numbers.push(number)?;
    }
    Ok(numbers)
}

/// Fractions over their least common denominator.
///
/// # Errors
/// Where a number has more than 62 bits; or want of memory.
pub fn over_one(alloc: Global, fractions: &[Fraction]) -> Result<Numbers, FindError> {
    let Some(common) = least_den(fractions) else {
        return Err(FindError::TooLong);
    };
    let Some(den) = Fraction::whole(common).over(1) else {
        return Err(FindError::TooLong);
    };
    let numbers = numerators(alloc, fractions, common)?;
    Ok(Numbers { den, numbers })
}

// What all numerators have in common: 1 where all are 0.
fn common_size(fractions: &[Fraction]) -> u128 {
    let mut common = 0;
    for fraction in fractions {
        common = gcd(common, fraction.size);
    }
    common.max(1)
}

/// The whole numbers in the ratio of fractions that have nothing in common. They take the place of the fractions.
///
/// # Errors
/// Where a number has more than 62 bits; or want of memory.
pub fn in_ratio(alloc: Global, fractions: &mut [Fraction]) -> Result<Nums, FindError> {
    let common = common_size(fractions);
    for place in 0..fractions.len() {
        let fraction = fractions[place];
        fractions[place] = Fraction {
            size: fraction.size.checked_div(common).unwrap_or(0),
            ..fraction
        };
    }
    Ok(over_one(alloc, fractions)?.numbers)
}
