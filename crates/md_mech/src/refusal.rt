//! Why numbers make no mechanism.

use thiserror::Error;

/// The first reason, in this order, for which numbers make no mechanism of a setting.
#[derive(Debug, Clone, Copy, Error)]
pub enum MechRefusal {
    /// A list has another length than the setting gives it.
    #[error("a list has a wrong length")]
    Shape,
    /// The denominator is not 1 to 2^62 - 1.
    #[error("the denominator is out of range")]
    Den,
    /// The chance at this place is negative.
    #[error("the chance at {0} is negative")]
    Negative(u32),
    /// The chances of the profile of this rank do not add to the denominator.
    #[error("the chances of profile {0} do not add up")]
    Sum(u32),
    /// The payment at this place is more than 2^62 - 1 in size, or not 0 where payments are off.
    #[error("the payment at {0} is out of range")]
    Payment(u32),
}
