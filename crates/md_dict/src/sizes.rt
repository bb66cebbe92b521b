//! Sizes of many numbers at once.
ghost use Rattle.std.specs.Prelude.{◌≡◌, ℕ, ◌+◌, ◌*◌, ◌<◌, ◌≤◌, ◌^◌, ◌⊎◌, pos, ◌*ℤ◌, ◌≤ℤ◌, length, slice_set, unsigned_abs, IsTrue};
ghost use Rattle.md_math.specs.Lists.{number_at};
ghost use Rattle.md_math.specs.Sizes.{AllWithin, IsWithin};
ghost use Rattle.md_dict_rows.specs.Reduce.{IsGreatestSize};
ghost use Rattle.md_dict_rows.specs.LeastRows.{IsRowSize};

// A quick test of whether each number is at most the limit in size: the sizes are joined bit by bit, and no size exceeds what comes of it.
pub fn are_surely_within(numbers: &[i64], limit: u128) -> bool
    ensures { IsTrue result → AllWithin limit numbers.now }
{
    let mut joined = 0;
    for x in numbers {
        joined |= x.unsigned_abs();
    }
    u128::from(joined) <= limit
}

// The greatest of a number and of what sizes amount to, each times its share.
pub fn greatest_product(sizes: &[i64], shares: &[i64], least: i128) -> i128
    requires length { length shares.now ≡ length sizes.now }
    requires sizes { AllWithin (2 ^ 62) sizes.now }
    requires shares { AllWithin (2 ^ 62) shares.now }
    requires least { IsWithin (2 ^ 62) least }
    requires least_nonneg { pos 0 ≤ℤ least }
    ensures size { unsigned_abs result < 2 ^ 126 }
    ensures least { least ≤ℤ result }
    ensures bound { (k : ℕ) → k < length sizes.now → (number_at shares.now k *ℤ pos (unsigned_abs (number_at sizes.now k))) ≤ℤ result }
    ensures reached { (result ≡ least) ⊎ ((k : ℕ) × (k < length sizes.now) × (number_at shares.now k *ℤ pos (unsigned_abs (number_at sizes.now k)) ≡ result)) }
{
    let mut greatest = least;
    for row in 0..sizes.len() {
        greatest = greatest.max(i128::from(shares[row]) * i128::from(sizes[row].unsigned_abs()));
    }
    greatest
}
