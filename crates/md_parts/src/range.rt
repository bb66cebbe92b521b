//! The range of a number in a field.
ghost use Rattle.std.specs.Prelude.{◌≡◌};

/// Which numbers may stand in a field.
#[derive(Clone, Copy)]
pub enum Range {
    /// Any number.
    Any,
    /// A number from 0 on.
    FromZero,
    /// A number from 1 on.
    FromOne,
    /// A number from one on and below another.
    Place { from: u64, below: u64 },
}

impl Range {
    ghost use Rattle.md_parts.specs.Ranges.{in_range};

    /// Whether a number is in the range.
    pub fn has(self, number: i128) -> bool
        ensures { result ≡ in_range self number }
    {
        match self {
            Range::Any => true,
            Range::FromZero => 0 <= number,
            Range::FromOne => 1 <= number,
            Range::Place { from, below } => {
                i128::from(from) <= number && number < i128::from(below)
            }
        }
    }
}
