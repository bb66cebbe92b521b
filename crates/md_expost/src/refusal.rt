//! Why numbers make no mass table.

use thiserror::Error;

/// The first reason, in this order, for which numbers make no mass table of an auction.
#[derive(Debug, Clone, Copy, Error)]
pub enum MassRefusal {
    /// The list has another length than the auction gives it.
    #[error("the list has a wrong length")]
    Shape,
    /// The denominator is not 1 to 2^62 - 1.
    #[error("the denominator is out of range")]
    Den,
    /// The number at this place is negative.
    #[error("the mass at {0} is negative")]
    Negative(u32),
    /// The number at this place is positive, and no bidder has the value there.
    #[error("the mass at {0} goes to no bidder")]
    Absent(u32),
    /// The numbers at the list of counts of this rank add to more than the denominator times its weight.
    #[error("the masses of rank {0} are more than one item")]
    Over(u32),
}
