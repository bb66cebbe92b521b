//! Greatest common divisors.
ghost use Rattle.std.specs.Prelude.{◌≡◌, ◌^◌, ◌<◌, ◌≤◌, pos, ◌*ℤ◌, ◌<ℤ◌, unsigned_abs};
ghost use Rattle.std.specs.Int.{IsGcd};
ghost use Rattle.md_math.specs.Divisors.{Divides, IsGcdOfTwo};

/// The greatest common divisor of two numbers, at least 0. That of 0 and 0 is 0.
pub fn gcd(a: i128, b: i128) -> i128
    requires left { unsigned_abs a < 2 ^ 126 }
    requires right { unsigned_abs b < 2 ^ 126 }
    ensures divisor { IsGcdOfTwo a b result }
    ensures size { unsigned_abs result < 2 ^ 126 }
{
    gcd_of_sizes(a.unsigned_abs(), b.unsigned_abs()) as i128
}

// Euclid's steps on wide numbers, until the second one has 64 bits.
fn gcd_of_sizes(first: u128, second: u128) -> u128
    ensures { IsGcd first second result }
{
    let mut a = first;
    let mut b = second;
    while b > u128::from(u64::MAX) {
        let rest = a % b;
        a = b;
        b = rest;
    }
    if b == 0 {
        return a;
    }
    u128::from(gcd_of_small(b as u64, (a % b) as u64))
}

// Euclid's steps.
fn gcd_of_small(first: u64, second: u64) -> u64
    ensures { IsGcd first second result }
{
    let mut a = first;
    let mut b = second;
    while b != 0 {
        let rest = a % b;
        a = b;
        b = rest;
    }
    a
}

/// The quotient of a number by a positive one that divides it.
pub fn exact_quotient(x: i128, divisor: i128) -> i128
    requires positive { pos 0 <ℤ divisor }
    requires exact { Divides divisor x }
    ensures value { divisor *ℤ result ≡ x }
    ensures size { unsigned_abs result ≤ unsigned_abs x }
{
    x / divisor
}
