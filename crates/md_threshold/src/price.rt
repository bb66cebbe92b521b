//! Prices by pools.
use md_num::Frac;

/// What a winner of one unit pays in one case.
#[derive(Clone, Copy)]
pub struct Price {
    /// The lowest value of the winner's pool.
    pub pool: u32,
    /// The lowest value of the best pool among the others; None where no other one buys.
    pub other: Option<u32>,
    /// How many of the others are in that pool.
    pub count: u32,
    /// The price, in least terms.
    pub price: Frac,
}
