//! Pools of values.

/// Neighbouring values that win equally often: those from `first` on that are before `stop`.
#[derive(Clone, Copy)]
pub struct Pool {
    /// The lowest value of the pool.
    pub first: u32,
    /// The first value above the pool.
    pub stop: u32,
}

/// The pools of an auction's values.
#[derive(Drop)]
pub struct AuctionPools {
    /// How many of the lowest values never win. Each of them is a pool of its own.
    pub reserve: u32,
    /// The pool of each value.
    pub by_kind: Vec<Pool>,
}
