//! Why a setting is not accepted.

use thiserror::Error;

/// The first reason, in this order, for which a setting is refused.
#[derive(Debug, Clone, Copy, Error)]
pub enum BuildRefusal {
    /// A name is not 1 to 32 letters, digits and underscores of ASCII.
    #[error("bad name")]
    BadName,
    /// Two agents, two outcomes, two types of one agent, or two groups of bidders share a name.
    #[error("double name")]
    DoubleName,
    /// There are too few or too many agents, types, outcomes, profiles, bidders, groups, values or slots.
    #[error("sizes")]
    Sizes,
    /// A list has another length than what it runs over.
    #[error("shape")]
    Shape,
    /// A number is outside its limits.
    #[error("out of range")]
    OutOfRange,
    /// A type, or a bidder's value, has no weight in all.
    #[error("zero weight")]
    ZeroWeight,
    /// The weights of all profiles add to more than 1,000,000, or those of a group of bidders, divided by their greatest
    /// common divisor, do.
    #[error("weight total")]
    WeightTotal,
    /// The values of bidders do not ascend strictly.
    #[error("values order")]
    ValuesOrder,
    /// A slot has a greater amount than the one before it.
    #[error("slots order")]
    SlotsOrder,
    /// The linear program of the setting has too many rows or cells.
    #[error("too many rows")]
    TooManyRows,
    /// An auction has too many profiles or lists of counts.
    #[error("too many counts")]
    TooManyCounts,
    /// There is no memory left.
    #[error("memory")]
    Memory,
}
