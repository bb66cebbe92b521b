//! A condition that a mechanism breaks.

/// A condition that a mechanism breaks: the left side was to be at least the right side.
#[derive(Clone, Copy, PartialEq, Eq)]
pub struct Broken {
    /// The number of the condition's row in the linear program of the setting, from 0.
    pub row: u32,
    /// The left side, in units of one over the denominator.
    pub left: i128,
    /// The right side, in the same units.
    pub right: i128,
}
