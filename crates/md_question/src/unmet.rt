//! What a mechanism is found to lack.

/// The first condition of a question that an admissible mechanism does not meet: its number, counted from 0, and both sides of the row
/// in which it fails, of which the left one is to be at least the right one.
#[derive(Clone, Copy)]
pub struct Unmet {
    pub condition: u32,
    pub left: i128,
    pub right: i128,
}
