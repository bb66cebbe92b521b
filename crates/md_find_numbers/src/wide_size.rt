//! Sizes of up to 256 bits.
ghost use Rattle.std.specs.Prelude.{◌≡◌, ◌+◌, ◌-◌, ◌*◌, ◌^◌, ◌<◌, ◌≤◌, ◌↔◌, IsTrue, IfSome};

use std::marker::Model;

/// A whole number of up to 256 bits that is at least 0, as the product of two sizes is.
#[derive(Drop)]
pub struct WideSize {
    high: u128,
    low: u128,
}

impl Model for WideSize {
    ghost use Rattle.std.specs.Prelude.{ℕ, ◌+◌, ◌*◌, ◌^◌};

    ghost Value = { ℕ };

    ghost view = { λ size. size.low + size.high * 2 ^ 128 };
}

/// What comes of dividing a size by a number: how often it goes into the size, and what is left.
#[derive(Drop)]
pub struct Division {
    pub quotient: WideSize,
    pub rest: u128,
}

impl WideSize {
    /// The product of two sizes.
    pub fn product(a: u128, b: u128) -> WideSize
        ensures { result ≡ a * b }
    {
        let (low, high) = a.carrying_mul(b, 0);
        WideSize { high, low }
    }

    /// The sum with another size.
    pub fn plus(&self, other: &WideSize) -> WideSize
        requires { self.now + other.now < 2 ^ 256 }
        ensures { result ≡ self.now + other.now }
    {
        let (low, carry) = self.low.carrying_add(other.low, false);
        let (high, _) = self.high.carrying_add(other.high, carry);
        WideSize { high, low }
    }

    /// What is left where another size is taken from it.
    pub fn minus(&self, other: &WideSize) -> WideSize
        requires { other.now ≤ self.now }
        ensures { result + other.now ≡ self.now }
    {
        let (low, borrow) = self.low.borrowing_sub(other.low, false);
        let (high, _) = self.high.borrowing_sub(other.high, borrow);
        WideSize { high, low }
    }

    /// Whether it is less than another size.
    pub fn is_less(&self, other: &WideSize) -> bool
        ensures { IsTrue result ↔ (self.now < other.now) }
    {
        let (_, borrow) = self.low.borrowing_sub(other.low, false);
        let (_, is_less) = self.high.borrowing_sub(other.high, borrow);
        is_less
    }

    /// Whether it is 0.
    pub fn is_zero(&self) -> bool
        ensures { IsTrue result ↔ (self.now ≡ 0) }
    {
        self.high == 0 && self.low == 0
    }

    /// The same size in 126 bits, if it has no more.
    pub fn narrow(&self) -> Option<u128>
        ensures value { IfSome result (λ size. size ≡ self.now) }
        ensures size { IfSome result (λ size. size < 2 ^ 126) }
    {
        if self.high == 0 && self.low < LEAST_LONG {
            Some(self.low)
        } else {
            None
        }
    }

    /// The division by a number of up to 127 bits.
    pub fn divided(&self, by: u128) -> Division
        requires positive { 0 < by }
        requires size { by < 2 ^ 127 }
        ensures value { result.quotient * by + result.rest ≡ self.now }
        ensures rest { result.rest < by }
    {
        let high = self.high / by;
        let part = divided_word(self.high % by, self.low, by);
        Division {
            quotient: WideSize {
                high,
                low: part.quotient,
            },
            rest: part.rest,
        }
    }
}

// The least size that has more than 126 bits.
const LEAST_LONG: u128 = 0x4000_0000_0000_0000_0000_0000_0000_0000;

// The least size that has more than 64 bits.
const LEAST_OF_TWO_WORDS: u128 = 0x1_0000_0000_0000_0000;

// A quotient that has one word, and what is left.
#[derive(Clone, Copy)]
struct Part {
    quotient: u128,
    rest: u128,
}

// Divides a word behind what was left before it.
fn divided_word(rest: u128, word: u128, by: u128) -> Part
    requires rest { rest < by }
    requires size { by < 2 ^ 127 }
    ensures value { result.quotient * by + result.rest ≡ rest * 2 ^ 128 + word }
    ensures rest { result.rest < by }
{
    if by < LEAST_OF_TWO_WORDS {
        divided_by_halves(rest, word, by)
    } else {
        divided_by_bits(rest, word, by)
    }
}

// Divides half a word behind what was left before it, by a number of 64 bits.
fn divided_half(rest: u128, half: u128, by: u128) -> Part
    requires rest { rest < by }
    requires size { by < 2 ^ 64 }
    requires half { half < 2 ^ 64 }
    ensures value { result.quotient * by + result.rest ≡ rest * 2 ^ 64 + half }
    ensures rest { result.rest < by }
    ensures size { result.quotient < 2 ^ 64 }
{
    let whole = rest * LEAST_OF_TWO_WORDS + half;
    Part {
        quotient: whole / by,
        rest: whole % by,
    }
}

// Divides a word by a number of 64 bits: its upper half, and then its lower one.
fn divided_by_halves(rest: u128, word: u128, by: u128) -> Part
    requires rest { rest < by }
    requires size { by < 2 ^ 64 }
    ensures value { result.quotient * by + result.rest ≡ rest * 2 ^ 128 + word }
    ensures rest { result.rest < by }
{
    let upper = divided_half(rest, word / LEAST_OF_TWO_WORDS, by);
    let lower = divided_half(upper.rest, word % LEAST_OF_TWO_WORDS, by);
    Part {
        quotient: upper.quotient * LEAST_OF_TWO_WORDS + lower.quotient,
        rest: lower.rest,
    }
}

// One more bit of a quotient.
fn with_bit(part: Part, bit: u128, by: u128) -> Part
    requires rest { part.rest < by }
    requires size { by < 2 ^ 127 }
    requires bit { bit < 2 }
    requires room { part.quotient < 2 ^ 127 }
    ensures value { result.quotient * by + result.rest ≡ 2 * (part.quotient * by + part.rest) + bit }
    ensures rest { result.rest < by }
    ensures size { result.quotient ≤ 2 * part.quotient + 1 }
{
    let whole = 2 * part.rest + bit;
    if whole < by {
        Part {
            quotient: 2 * part.quotient,
            rest: whole,
        }
    } else {
        Part {
            quotient: 2 * part.quotient + 1,
            rest: whole - by,
        }
    }
}

// Divides a word bit by bit, the greatest one first.
fn divided_by_bits(rest: u128, word: u128, by: u128) -> Part
    requires rest { rest < by }
    requires size { by < 2 ^ 127 }
    ensures value { result.quotient * by + result.rest ≡ rest * 2 ^ 128 + word }
    ensures rest { result.rest < by }
{
    let mut part = Part { quotient: 0, rest };
    for done in 0..128u32 {
        part = with_bit(part, (word >> (127 - done)) % 2, by);
    }
    part
}
