//! Fractions, and their order.
ghost use Rattle.std.specs.Prelude.{◌≡◌, ℤ, ◌^◌, ◌*◌, ◌<◌, ◌≤◌, ◌↔◌, IsTrue, pos, ◌*ℤ◌, ◌≤ℤ◌, ◌<ℤ◌, unsigned_abs};
ghost use Rattle.md_math.specs.Divisors.{IsLeastTerms};

use crate::division::{exact_quotient, gcd};

/// A fraction, as its numerator over its denominator.
#[derive(Clone, Copy, PartialEq, Eq)]
pub struct Frac {
    pub num: i128,
    pub den: i128,
}

impl Frac {
    /// The fraction in least terms, with a positive denominator. That of 0 is 0 over 1.
    pub fn reduced(num: i128, den: i128) -> Frac
        requires positive { pos 0 <ℤ den }
        requires num_size { unsigned_abs num < 2 ^ 126 }
        requires den_size { unsigned_abs den < 2 ^ 126 }
        ensures value { result.num *ℤ den ≡ num *ℤ result.den }
        ensures least { IsLeastTerms result.num result.den }
        ensures num_size { unsigned_abs result.num ≤ unsigned_abs num }
        ensures den_size { unsigned_abs result.den ≤ unsigned_abs den }

        // No other fraction in least terms has this value.
        ensures only { (p q : ℤ) → IsLeastTerms p q → p *ℤ den ≡ num *ℤ q → (p ≡ result.num) × (q ≡ result.den) }
    {
        let divisor = gcd(num, den);
        Frac {
            num: exact_quotient(num, divisor),
            den: exact_quotient(den, divisor),
        }
    }

    /// Whether the fraction is at most another one. No number here is greater than those of the fractions.
    pub fn at_most(&self, other: &Frac) -> bool
        requires den { pos 0 <ℤ self.now.den }
        requires other_den { pos 0 <ℤ other.now.den }
        ensures { IsTrue result ↔ ((self.now.num *ℤ other.now.den) ≤ℤ (other.now.num *ℤ self.now.den)) }
    {
        let left = self.num.unsigned_abs();
        let right = other.num.unsigned_abs();
        match (self.num < 0, other.num < 0) {
            (false, false) => are_in_order(left, size(self.den), right, size(other.den)),
            (true, true) => are_in_order(right, size(other.den), left, size(self.den)),
            (negative, _) => negative,
        }
    }
}

// Whether the first of two fractions of sizes is at most the second: by their whole parts, and where these are the same,
// by the remainders turned over.
fn are_in_order(num: u128, den: u128, other_num: u128, other_den: u128) -> bool
    requires den { 0 < den }
    requires other_den { 0 < other_den }
    ensures { IsTrue result ↔ (num * other_den ≤ other_num * den) }
{
    let mut a = num;
    let mut b = den;
    let mut c = other_num;
    let mut d = other_den;
    while a / b == c / d {
        let rest = a % b;
        let other_rest = c % d;
        if rest == 0 {
            return true;
        }
        if other_rest == 0 {
            return false;
        }
        a = d;
        c = b;
        b = other_rest;
        d = rest;
    }
    a / b < c / d
}

fn size(number: i128) -> u128
    ensures { result ≡ unsigned_abs number }
{
    number.unsigned_abs()
}
