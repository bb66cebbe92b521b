//! Greatest common divisors of sizes.
ghost use Rattle.std.specs.Int.{IsGcd};

/// The greatest common divisor of two sizes. That of 0 and 0 is 0.
pub fn gcd(first: u128, second: u128) -> u128
    ensures { IsGcd first second result }
{
    let mut a = first;
    let mut b = second;
    while b != 0 {
        let rest = a % b;
        a = b;
        b = rest;
    }
    a
}
