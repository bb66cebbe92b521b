//! Widths in bits.
ghost use Rattle.std.specs.Prelude.{◌≡◌, ◌-◌, ◌^◌, ◌≤◌, ◌↔◌, pos, SomeIff, IsTrue};
ghost use Rattle.md_math.specs.Sizes.{IsWithin};
ghost use Rattle.md_num.specs.Limits.{limit_of};

use std::marker::Model;

/// How many bits a number may have: from 4 to 62.
#[derive(Clone, Copy)]
pub struct Width {
    bits: u8,
}

// A width is seen as its number of bits.
impl Model for Width {
    ghost use Rattle.std.specs.Prelude.{ℕ, ◌≤◌};

    ghost Value = { ℕ };

    ghost view = { λ w. w.bits };

    ghost invariant = { λ w. (4 ≤ w.bits) × (w.bits ≤ 62) };

    ghost inverse = { λ bits. record { bits = bits } };
}

impl Width {
    /// The width of so many bits, if they are from 4 to 62.
    pub fn new(bits: u8) -> Option<Width>
        ensures { SomeIff result ((4 ≤ bits) × (bits ≤ 62)) bits }
    {
        if bits < 4 || bits > 62 {
            return None;
        }
        Some(Width { bits })
    }

    /// The greatest size of a number of this width: two to the power of the bits, minus one.
    pub fn limit(&self) -> i128
        ensures value { result ≡ pos (limit_of self.now) }
        ensures range { (4 ≤ self.now) × (self.now ≤ 62) }
    {
        let power = 1u64 << self.bits;
        i128::from(power - 1)
    }
}

/// Whether a number is at most the limit of the width in size.
pub fn fits(x: i128, width: Width) -> bool
    ensures { IsTrue result ↔ IsWithin (limit_of width) x }
{
    x.unsigned_abs() <= width.limit().unsigned_abs()
}
