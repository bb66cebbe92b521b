//! The lowest bits of machine words, and limits on their sizes.
ghost use Rattle.std.specs.Prelude.{◌≡◌, ◌%◌, ◌^◌, ◌↔◌, IsTrue};
ghost use Rattle.md_math.specs.Sizes.{IsWithin};

/// Whether a number is within a limit, that is, at most the limit in size.
pub fn is_within(x: i128, limit: u128) -> bool
    ensures { IsTrue result ↔ IsWithin limit x }
{
    x.unsigned_abs() <= limit
}

/// The lowest 64 bits.
pub fn lowest_bits(size: u128) -> u64
    ensures { result ≡ size % 2 ^ 64 }
{
    (size & u128::from(u64::MAX)) as u64
}

/// The lowest 32 bits.
pub fn lowest_half(x: u64) -> u32
    ensures { result ≡ x % 2 ^ 32 }
{
    (x & 0xffff_ffff) as u32
}
