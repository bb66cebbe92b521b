//! How large what is combined is.
ghost use Rattle.std.specs.Prelude.{◌≡◌, ◌-◌, ◌^◌, ℤ, List, IsTrue};
ghost use Rattle.md_math.specs.Sizes.{AllWithin, IsWithin};

use crate::combination::Combination;

// The greatest size of a number of 32 bits and a sign among them.
const GREATEST_HALF: u64 = 0x7fff_ffff;

// How large what is combined is: what no number is above, and whether all that is multiplied has 32 bits, of which the limit has no fewer.
#[derive(Clone, Copy)]
pub struct Reach {
    pub bound: u128,
    pub is_half: bool,
}

impl Reach {
    ghost use Rattle.md_dict_rows.specs.Reduce.{IsReach};

    // How large what is combined is, by the sizes of the two rows.
    pub fn of(combination: &Combination, own_size: u64, taken_size: u64, limit: u64) -> Reach
        requires multiplier { IsWithin (2 ^ 62) combination.now.multiplier }
        requires factor { IsWithin (2 ^ 62) combination.now.factor }
        ensures { (own taken : List ℤ) → AllWithin own_size own → AllWithin taken_size taken → IsReach combination.now own taken limit result }
    {
        let factors = combination.multiplier.unsigned_abs() | combination.factor.unsigned_abs();
        let joined = factors | own_size | taken_size;
        Reach {
            bound: combination.bound(own_size, taken_size),
            is_half: joined <= GREATEST_HALF && limit > GREATEST_HALF,
        }
    }

    // Whether quotients by a number are written by numbers of 32 bits: where they have 32 bits too, as far as is known.
    pub fn suits_halves(&self, divisor: i64) -> bool
        ensures { IsTrue result → IsTrue self.now.is_half × IsWithin (2 ^ 31 - 1) divisor }
    {
        if !self.is_half {
            return false;
        }
        let size = divisor.unsigned_abs();
        size <= GREATEST_HALF && self.bound >> 31 < u128::from(size)
    }
}
