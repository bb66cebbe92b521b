//! What bidders win.

/// What a bidder with a slot gets and pays.
#[derive(Clone, Copy)]
pub struct Won {
    /// The number of the bidder, counted from 0.
    pub bidder: u32,
    /// The amount of its slot.
    pub amount: i64,
    /// What it pays for that.
    pub pays: i128,
}
