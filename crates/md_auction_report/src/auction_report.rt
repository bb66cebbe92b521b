//! What is told of interim odds and payments.

use crate::greatest::Greatest;
use crate::value_numbers::ValueNumbers;
use md_num::Frac;

/// What interim odds and payments do, and how far they are from the conditions of their auction. All fractions are in least
/// terms.
#[derive(Drop)]
pub struct AuctionReport {
    /// The expected objective.
    pub value: Frac,
    /// The expected payments of all bidders.
    pub revenue: Frac,
    /// What the item, or the units, are expected to be worth to all bidders, payments left out.
    pub welfare: Frac,
    /// What a bidder with each value gets and pays, by kind.
    pub types: Vec<ValueNumbers>,
    /// The value that another one is told for by which most is gained, where there are several.
    pub gain: Option<Greatest>,
    /// The value with which a bidder gets least.
    pub loss: Greatest,
    /// The rows of the conditions of the reduced program that hold with equality, ascending.
    pub tight: Vec<u32>,
}
