//! Combinations of two rows, before they are in least terms.
ghost use Rattle.std.specs.Prelude.{◌≡◌, ◌+◌, ◌*◌, ◌^◌, ◌<◌, ◌≤◌, pos, ◌-ℤ◌, ◌*ℤ◌, ◌<ℤ◌, length, unsigned_abs};
ghost use Rattle.md_math.specs.Divisors.{Divides};
ghost use Rattle.md_math.specs.Sizes.{IsWithin};

use md_dict_division::binary_gcd;
use md_num::cross_difference;

// The least size that has more than 63 bits.
pub const LEAST_LONG: u128 = 0x8000_0000_0000_0000;

/// A row that a pivot changes, before it is in least terms: a multiple of its own numbers, less a multiple of those of the pivot row. At the place of the pivot stands what the leaving column holds, combined in the same way with the denominator of the pivot row.
#[derive(Clone, Copy)]
pub struct Combination {
    pub place: usize,
    pub multiplier: i64,
    pub factor: i64,
    pub den: i64,
    pub pivot_den: i64,
    pub leaving: i64,
}

/// What is told of a row in least terms beside its numbers: its denominator, and the size of its greatest number.
#[derive(Clone, Copy)]
pub struct LeastRow {
    pub den: i64,
    pub size: i64,
}

// The quotient of a number by one that divides it.
fn share(x: i64, divisor: u64) -> i64
    requires size { IsWithin (2 ^ 62) x }
    requires positive { 0 < divisor }
    requires divisor_size { divisor ≤ 2 ^ 62 }
    requires exact { Divides (pos divisor) x }
    ensures value { pos divisor *ℤ result ≡ x }
    ensures size { IsWithin (2 ^ 62) result }
{
    x / (divisor as i64)
}

impl Combination {
    ghost use Rattle.md_dict_rows.specs.Combination.{IsCombination, IsLowered, combined, combined_den};

    /// The multiplier times a number of the row, less the factor times one of the pivot row.
    pub fn mixed(&self, own: i64, taken: i64) -> i128
        requires multiplier { IsWithin (2 ^ 62) self.now.multiplier }
        requires factor { IsWithin (2 ^ 62) self.now.factor }
        requires own { IsWithin (2 ^ 62) own }
        requires taken { IsWithin (2 ^ 62) taken }
        ensures value { result ≡ self.now.multiplier *ℤ own -ℤ self.now.factor *ℤ taken }
        ensures size { unsigned_abs result < 2 ^ 126 }
    {
        cross_difference(
            i128::from(self.multiplier),
            i128::from(own),
            i128::from(self.factor),
            i128::from(taken),
        )
    }

    /// The number at a place.
    pub fn number(&self, own: &[i64], taken: &[i64], place: usize) -> i128
        requires combination { IsCombination self.now own.now taken.now }
        requires place { place < length own.now }
        ensures value { result ≡ combined self.now own.now taken.now place }
        ensures size { unsigned_abs result < 2 ^ 126 }
    {
        if place == self.place {
            self.mixed(self.leaving, self.pivot_den)
        } else {
            self.mixed(own[place], taken[place])
        }
    }

    /// The denominator.
    pub fn whole_den(&self) -> i128
        requires multiplier { IsWithin (2 ^ 62) self.now.multiplier }
        requires den { IsWithin (2 ^ 62) self.now.den }
        ensures value { result ≡ combined_den self.now }
        ensures size { unsigned_abs result < 2 ^ 126 }
    {
        i128::from(self.multiplier) * i128::from(self.den)
    }

    /// What no number is above, by the sizes of the two rows.
    pub fn bound(&self, own_size: u64, taken_size: u64) -> u128
        requires multiplier { IsWithin (2 ^ 62) self.now.multiplier }
        requires factor { IsWithin (2 ^ 62) self.now.factor }
        ensures { result ≡ unsigned_abs self.now.multiplier * own_size + unsigned_abs self.now.factor * taken_size }
    {
        let own = u128::from(self.multiplier.unsigned_abs()) * u128::from(own_size);
        let taken = u128::from(self.factor.unsigned_abs()) * u128::from(taken_size);
        own + taken
    }

    /// The same row by smaller numbers: the multiplier and the factor without their greatest common divisor, where products would have more than 63 bits.
    pub fn lowered(&self, own_size: u64, taken_size: u64) -> Combination
        requires multiplier { IsWithin (2 ^ 62) self.now.multiplier }
        requires positive { pos 0 <ℤ self.now.multiplier }
        requires factor { IsWithin (2 ^ 62) self.now.factor }
        requires den { IsWithin (2 ^ 62) self.now.den }
        requires pivot_den { IsWithin (2 ^ 62) self.now.pivot_den }
        requires leaving { IsWithin (2 ^ 62) self.now.leaving }
        ensures { IsLowered self.now result }
    {
        if self.bound(own_size, taken_size) < LEAST_LONG {
            return *self;
        }
        let common = binary_gcd(self.multiplier.unsigned_abs(), self.factor.unsigned_abs());
        Combination {
            multiplier: share(self.multiplier, common),
            factor: share(self.factor, common),
            ..*self
        }
    }
}
