//! Where the search for the greatest common divisor of a combination begins.
ghost use Rattle.std.specs.Prelude.{◌≡◌, ◌<◌, ◌^◌, ℤ, pos, ◌-ℤ◌, ◌*ℤ◌, List, length, unsigned_abs};
ghost use Rattle.std.specs.Int.{IsGcd};
ghost use Rattle.md_math.specs.Lists.{number_at};
ghost use Rattle.md_math.specs.Divisors.{IsGcdOfTwo};
ghost use Rattle.md_math.specs.Sizes.{IsWithin};
ghost use Rattle.md_dict_rows.specs.Combination.{AreLeastRows, IsCombination, combined};
ghost use Rattle.md_dict_rows.specs.Reduce.{AreShort, IsAttempt};

use crate::combination::{Combination, LEAST_LONG};
use crate::witnesses::Witnesses;
use md_dict_division::{Divider, binary_gcd};

// The greatest common divisor of a divisor and of the number at a place.
pub fn common_at(
    combination: &Combination,
    own: &[i64],
    taken: &[i64],
    place: usize,
    divider: &Divider,
) -> Divider
    requires combination { IsCombination combination.now own.now taken.now }
    requires place { place < length own.now }
    requires attempt { IsAttempt combination.now own.now taken.now divider.now.value }
    ensures attempt { IsAttempt combination.now own.now taken.now result.value }
    ensures divisor { IsGcdOfTwo divider.now.value (combined combination.now own.now taken.now place) result.value }
{
    divider.common(combination.number(own, taken, place))
}

// What the multiplier and the factor have in common.
fn common_factor(combination: &Combination) -> u64
    requires multiplier { IsWithin (2 ^ 62) combination.now.multiplier }
    requires factor { IsWithin (2 ^ 62) combination.now.factor }
    ensures { IsGcd (unsigned_abs combination.now.multiplier) (unsigned_abs combination.now.factor) result }
{
    binary_gcd(
        combination.multiplier.unsigned_abs(),
        combination.factor.unsigned_abs(),
    )
}

// What the denominators of the two rows have in common.
fn common_den(combination: &Combination) -> u64
    requires den { IsWithin (2 ^ 62) combination.now.den }
    requires pivot_den { IsWithin (2 ^ 62) combination.now.pivot_den }
    ensures { IsGcd (unsigned_abs combination.now.den) (unsigned_abs combination.now.pivot_den) result }
{
    binary_gcd(
        combination.den.unsigned_abs(),
        combination.pivot_den.unsigned_abs(),
    )
}

// What the multiplier and the factor have in common, times what the two denominators have in common. Since both rows are in least terms, every common divisor of the combination divides it.
pub fn candidate(combination: &Combination) -> u128
    requires multiplier { IsWithin (2 ^ 62) combination.now.multiplier }
    requires factor { IsWithin (2 ^ 62) combination.now.factor }
    requires den { IsWithin (2 ^ 62) combination.now.den }
    requires pivot_den { IsWithin (2 ^ 62) combination.now.pivot_den }
    ensures { (own taken : List ℤ) → IsCombination combination.now own taken → AreLeastRows combination.now own taken → IsAttempt combination.now own taken (pos result) }
{
    u128::from(common_factor(combination)) * u128::from(common_den(combination))
}

// The greatest common divisor of a candidate and of the numbers at the places at which divisors failed before.
fn common_at_witnesses(
    combination: &Combination,
    own: &[i64],
    taken: &[i64],
    candidate: i128,
    witnesses: &Witnesses,
) -> Divider
    requires combination { IsCombination combination.now own.now taken.now }
    requires attempt { IsAttempt combination.now own.now taken.now candidate }
    ensures { IsAttempt combination.now own.now taken.now result.value }
{
    let mut divider = Divider::new(candidate);
    for place in witnesses.places {
        if divider.value == 1 {
            return divider;
        }
        if place < own.len() {
            divider = common_at(combination, own, taken, place, &divider);
        }
    }
    divider
}

// The size of what the numbers of the two rows at a place give, where all has 63 bits. At the place of the pivot that is 0, which every divisor divides.
fn short_size(combination: &Combination, own: &[i64], taken: &[i64], place: usize) -> u64
    requires combination { IsCombination combination.now own.now taken.now }
    requires short { AreShort combination.now own.now taken.now }
    requires place { place < length own.now }
    ensures { result ≡ unsigned_abs (combination.now.multiplier *ℤ number_at own.now place -ℤ combination.now.factor *ℤ number_at taken.now place) }
{
    combination.mixed(own[place], taken[place]).unsigned_abs() as u64
}

// The divisor that `common_at_witnesses` finds, where all has 63 bits.
fn short_common_at_witnesses(
    combination: &Combination,
    own: &[i64],
    taken: &[i64],
    candidate: u64,
    witnesses: &Witnesses,
) -> Divider
    requires combination { IsCombination combination.now own.now taken.now }
    requires rows { AreLeastRows combination.now own.now taken.now }
    requires short { AreShort combination.now own.now taken.now }
    requires attempt { IsAttempt combination.now own.now taken.now (pos candidate) }
    ensures { IsAttempt combination.now own.now taken.now result.value }
{
    let mut divider = Divider::short(candidate);
    for place in witnesses.places {
        if divider.low == 1 {
            return divider;
        }
        if place < own.len() {
            divider = divider.short_common(short_size(combination, own, taken, place));
        }
    }
    divider
}

// A number that every common divisor of the combination divides, found from its factors and from the numbers at a few places. Most often it divides all others too, so that few rows are written in vain. No number is above the bound.
pub fn first_divider(
    combination: &Combination,
    own: &[i64],
    taken: &[i64],
    bound: u128,
    witnesses: &Witnesses,
) -> Divider
    requires combination { IsCombination combination.now own.now taken.now }
    requires rows { AreLeastRows combination.now own.now taken.now }
    requires short { bound < 2 ^ 63 → AreShort combination.now own.now taken.now }
    ensures { IsAttempt combination.now own.now taken.now result.value }
{
    let candidate = candidate(combination);
    if bound < LEAST_LONG && candidate < LEAST_LONG {
        short_common_at_witnesses(combination, own, taken, candidate as u64, witnesses)
    } else {
        common_at_witnesses(combination, own, taken, candidate as i128, witnesses)
    }
}
