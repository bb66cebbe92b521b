//! What bidders have.
use md_num::Frac;

/// What a bidder has at a profile and a draw.
#[derive(Clone, Copy)]
pub struct Share {
    /// How often it wins at the profile, over all draws, in least terms.
    pub chance: Frac,
    /// What it pays where it wins, in least terms; None where it never wins.
    pub price: Option<Frac>,
    /// Whether it wins at the draw.
    pub wins: bool,
}

/// What all bidders have at a profile and a draw, in their order.
#[derive(Drop)]
pub struct Award {
    pub shares: Vec<Share>,
}
