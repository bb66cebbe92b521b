//! Greatest points of programs.
use md_cert::Bound;
use md_num::Nums;

/// A point of a program that no point exceeds, and what shows this.
#[derive(Drop)]
pub struct Optimum {
    /// The denominator of the point.
    pub den: i128,
    /// A number for each column, in units of one over the denominator.
    pub point: Nums,
    /// Multipliers that show that no point has a greater cost.
    pub bound: Bound,
}
