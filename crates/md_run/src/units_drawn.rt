//! What is drawn of several units.
use md_num::Nums;

/// Who gets a unit, and what each bidder then pays.
#[derive(Drop)]
pub struct UnitsDrawn {
    /// Whether each bidder gets a unit.
    pub wins: Vec<bool>,
    /// The payments, by bidder, in units of one over the denominator.
    pub pays: Nums,
    /// The denominator of the payments.
    pub den: i128,
}
