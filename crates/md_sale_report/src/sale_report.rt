//! What is told of interim odds and payments of a sale.

use md_report::Report;

/// What interim odds and payments of a sale do, and how far they are from its conditions.
#[derive(Drop)]
pub struct SaleReport {
    /// The value, the revenue and the welfare, what each type gets and pays, the greatest gain and loss of each agent, and which
    /// conditions on truth and rationality hold with equality.
    pub figures: Report,
    /// The cuts that hold with equality, in the order of the list. A cut is a set of pairs of an agent and a type, by the bits
    /// of their numbers.
    pub cuts: Vec<u32>,
}
