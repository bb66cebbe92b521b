//! Least common multiples, and the shares of numbers in one.
ghost use Rattle.std.specs.Prelude.{◌≡◌, ℕ, ◌<◌, ◌^◌, ◌↔◌, ℤ, pos, ◌*ℤ◌, ◌<ℤ◌, length, unsigned_abs, IsTrue};
ghost use Rattle.md_math.specs.Lists.{number_at};
ghost use Rattle.md_math.specs.Sizes.{AllWithin, IsWithin};
ghost use Rattle.md_math.specs.Divisors.{Divides};
ghost use Rattle.md_dict.specs.Multiples.{IsLeastMultiple, IsMultipleOfTwo};

use md_dict_division::{common_divisor, is_within};
use md_num::{exact_quotient, product};

// Whether a number divides a multiple, both of which have mostly 64 bits.
fn divides(den: i128, multiple: i128) -> bool
    requires positive { pos 0 <ℤ den }
    ensures { IsTrue result ↔ Divides den multiple }
{
    let size = multiple.unsigned_abs();
    let divisor = den.unsigned_abs();
    if size <= u128::from(u64::MAX) && divisor <= u128::from(u64::MAX) {
        size as u64 % divisor as u64 == 0
    } else {
        size % divisor == 0
    }
}

// What the first of two numbers is multiplied by to give their least common multiple.
fn missing_factor(multiple: i128, number: i128) -> i128
    requires multiple { pos 0 <ℤ multiple }
    requires number { pos 0 <ℤ number }
    requires multiple_size { unsigned_abs multiple < 2 ^ 126 }
    requires number_size { unsigned_abs number < 2 ^ 126 }
    ensures { IsMultipleOfTwo multiple number (multiple *ℤ result) }
{
    exact_quotient(number, common_divisor(multiple, number))
}

// The least common multiple of two numbers that have a common multiple of 126 bits.
pub fn with_multiple(multiple: i128, den: i128) -> i128
    requires multiple { pos 0 <ℤ multiple }
    requires den { pos 0 <ℤ den }
    requires room { (x : ℤ) × (unsigned_abs x < 2 ^ 126) × (pos 0 <ℤ x) × Divides multiple x × Divides den x }
    ensures multiple { IsMultipleOfTwo multiple den result }
    ensures size { unsigned_abs result < 2 ^ 126 }
{
    if divides(den, multiple) {
        return multiple;
    }
    product(multiple, missing_factor(multiple, den))
}

// Writes what each number is multiplied by to give a multiple of all. A number that is the one before again has its share again, without a division.
pub fn share_out(multiple: i64, dens: &[i64], shares: &mut [i64])
    requires length { length shares.old ≡ length dens.now }
    requires positive { (k : ℕ) → k < length dens.now → pos 0 <ℤ number_at dens.now k }
    requires multiple_positive { pos 0 <ℤ multiple }
    requires size { IsWithin (2 ^ 62) multiple }
    requires divides { (k : ℕ) → k < length dens.now → Divides (number_at dens.now k) multiple }
    ensures length { length shares.new ≡ length dens.now }
    ensures shared { (k : ℕ) → k < length dens.now → number_at shares.new k *ℤ number_at dens.now k ≡ multiple }
    ensures size { AllWithin (2 ^ 62) shares.new }
{
    let mut den = 1;
    let mut share = multiple;
    for k in 0..dens.len() {
        if dens[k] != den {
            den = dens[k];
            share = multiple / den;
        }
        shares[k] = share;
    }
}

// Whether each size, times its share, is within a limit.
pub fn are_sizes_within(sizes: &[i64], shares: &[i64], limit: u128) -> bool
    requires length { length shares.now ≡ length sizes.now }
    requires sizes { AllWithin (2 ^ 62) sizes.now }
    requires shares { AllWithin (2 ^ 62) shares.now }
    ensures { IsTrue result ↔ ((k : ℕ) → k < length sizes.now → IsWithin limit (number_at shares.now k *ℤ number_at sizes.now k)) }
{
    for k in 0..sizes.len() {
        if !is_product_within(shares[k], sizes[k], limit) {
            return false;
        }
    }
    true
}

// Whether the product of two numbers is within a limit.
fn is_product_within(share: i64, size: i64, limit: u128) -> bool
    requires share { IsWithin (2 ^ 62) share }
    requires size { IsWithin (2 ^ 62) size }
    ensures { IsTrue result ↔ IsWithin limit (share *ℤ size) }
{
    is_within(product(i128::from(share), i128::from(size)), limit)
}
