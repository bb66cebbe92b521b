//! Interim odds and payments.
use md_num::Nums;

/// What each bidder of a symmetric auction expects by its value: how often it wins, and what it pays, on average over
/// the values of the others. All numbers are in units of one over the denominator.
#[derive(Drop)]
pub struct Interim {
    /// The denominator of all odds and payments.
    pub den: i128,
    /// The chance to win, by the kind of the bidder's value.
    pub odds: Nums,
    /// The payment, by the kind of the bidder's value.
    pub pays: Nums,
}
