//! Residues of whole numbers modulo a prime.

/// The greatest prime of 63 bits, 2^63 - 25. Residues are below it.
pub const PRIME: u64 = 0x7fff_ffff_ffff_ffe7;

// What is left of 2^63, and the 63 bits below it.
const REST: u64 = 25;

const LOW_BITS: u64 = 0x7fff_ffff_ffff_ffff;

// A number of two words that is shorter and has the same residue: 2^63 is as much as its rest.
fn folded(low: u64, high: u64) -> (u64, u64) {
    let upper = high.wrapping_shl(1) | (low >> 63u32);
    upper.carrying_mul(REST, low & LOW_BITS)
}

// The residue of a number below twice the prime.
fn least(number: u64) -> u64 {
    if number >= PRIME {
        number - PRIME
    } else {
        number
    }
}

/// The product of two residues.
pub fn product(a: u64, b: u64) -> u64 {
    let (low, high) = a.carrying_mul(b, 0);
    let (short, carry) = folded(low, high);
    let (shortest, _) = folded(short, carry);
    least(shortest)
}

/// The sum of two residues.
pub fn sum(a: u64, b: u64) -> u64 {
    least(a.wrapping_add(b))
}

/// The difference of two residues.
pub fn difference(a: u64, b: u64) -> u64 {
    if a >= b {
        a - b
    } else {
        a.wrapping_sub(b).wrapping_add(PRIME)
    }
}

/// The residue that gives 1 with another one that is not 0: its power by the prime less 2.
pub fn inverse(residue: u64) -> u64 {
    let mut power = residue;
    let mut result = 1;
    for bit in 0..63u32 {
        if ((PRIME - 2) >> bit) % 2 == 1 {
            result = product(result, power);
        }
        power = product(power, power);
    }
    result
}

/// The residue of a whole number.
pub fn residue(number: i128) -> u64 {
    let size = (number.unsigned_abs() % u128::from(PRIME)) as u64;
    if number < 0 {
        difference(0, size)
    } else {
        size
    }
}
