//! Linear equations, solved.
use crate::inverse::Inverse;
use crate::matrix::Matrix;
use crate::prime::PRIME;
use crate::residues::Residues;
use crate::square::{common_denominator, joined, numerators, whole};
use md_find::FindError;
use std::alloc::Global;

/// Fractions by their numerators over one denominator.
#[derive(Drop)]
pub struct Solution {
    pub den: i128,
    pub numbers: Vec<i128>,
}

/// The list whose product with a matrix is a right side. It is worked out modulo the square of the prime: modulo the prime, and then what is left of the right side, divided by the prime, modulo the prime again (Dixon 1982).
///
/// # Errors
/// Where the matrix has no inverse, or a number of the solution has more than 62 bits; or want of memory.
pub fn solve(alloc: Global, matrix: &Matrix, mut right: Vec<i128>) -> Result<Solution, FindError> {
    let inverse = Inverse::new(alloc, matrix)?;
    let low = inverse.times(alloc, &Residues::of(alloc, right.as_slice())?)?;
    matrix.subtract_product(&low, right.as_mut_slice());
    divide(right.as_mut_slice());
    let high = inverse.times(alloc, &Residues::of(alloc, right.as_slice())?)?;
    let numbers = joined_lists(alloc, &low, &high, right.len())?;
    with_denominator(alloc, numbers.as_slice())
}

// Divides numbers by the prime.
fn divide(numbers: &mut [i128]) {
    for number in numbers.iter_mut() {
        *number = *number / i128::from(PRIME);
    }
}

// The numbers of so many digits each.
fn joined_lists(
    alloc: Global,
    low: &Residues,
    high: &Residues,
    count: usize,
) -> Result<Vec<u128>, FindError> {
    let mut numbers = Vec::new(alloc);
    for place in 0..count {
        numbers.push(joined(low.get(place), high.get(place)))?;
    }
    Ok(numbers)
}

// The fractions that numbers stand for.
fn with_denominator(alloc: Global, numbers: &[u128]) -> Result<Solution, FindError> {
    let Some(common) = common_denominator(numbers) else {
        return Err(FindError::TooLong);
    };
    let Some(den) = whole(common) else {
        return Err(FindError::TooLong);
    };
    let numbers = numerators(alloc, numbers, common)?;
    Ok(Solution { den, numbers })
}
