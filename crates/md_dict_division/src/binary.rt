//! The greatest common divisor of two numbers of 64 bits, by halves and differences.
ghost use Rattle.std.specs.Prelude.{◌≡◌, ◌+◌, ◌-◌, ◌*◌, ◌^◌, ◌%◌, ◌<◌, min};
ghost use Rattle.std.specs.Int.{IsGcd, abs_diff, trailing_zeros, w64};

/// The greatest common divisor of two numbers of 64 bits, by halves and differences, which take less time than remainders.
pub fn binary_gcd(a: u64, b: u64) -> u64
    ensures { IsGcd a b result }
{
    if a == 0 {
        return b;
    }
    if b == 0 {
        return a;
    }
    gcd_of_odd(odd_part(a), odd_part(b)) << common_twos(a, b)
}

// How often 2 divides both numbers.
fn common_twos(a: u64, b: u64) -> u32
    ensures { result ≡ min (trailing_zeros w64 a) (trailing_zeros w64 b) }
{
    a.trailing_zeros().min(b.trailing_zeros())
}

// A number without its factors of 2.
fn odd_part(x: u64) -> u64
    requires { 0 < x }
    ensures odd { result % 2 ≡ 1 }
    ensures value { 2 ^ trailing_zeros w64 x * result ≡ x }
{
    x >> x.trailing_zeros()
}

// The distance of two numbers without its factors of 2. There are as many as in their difference in 64 bits, which is known earlier.
fn odd_gap(a: u64, b: u64, difference: u64) -> u64
    requires difference { difference ≡ (a + (2 ^ 64 - b)) % 2 ^ 64 }
    requires some { 0 < difference }
    ensures odd { result % 2 ≡ 1 }
    ensures value { 2 ^ trailing_zeros w64 difference * result ≡ abs_diff a b }
{
    a.abs_diff(b) >> difference.trailing_zeros()
}

// The greatest common divisor of two odd numbers. What is left of the greater one after a difference is even, and loses all its factors of 2 at once.
fn gcd_of_odd(a: u64, b: u64) -> u64
    requires left { a % 2 ≡ 1 }
    requires right { b % 2 ≡ 1 }
    ensures { IsGcd a b result }
{
    let mut small = a;
    let mut part = b;
    let mut difference = part.wrapping_sub(small);
    while difference != 0 {
        let gap = odd_gap(part, small, difference);
        small = small.min(part);
        part = gap;
        difference = part.wrapping_sub(small);
    }
    small
}
