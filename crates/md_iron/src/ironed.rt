//! What comes of the closed form of an auction.
use md_answer::Answer;

/// What comes of the closed form of an auction.
#[derive(Drop)]
pub enum Ironed {
    /// An optimal mechanism with its value, and the multipliers that certify it.
    Optimal(Answer),
    /// The multipliers that certify it are too long.
    Undecided,
}
