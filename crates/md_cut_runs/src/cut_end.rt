//! The end of a cut run.
use crate::Optimum;
use md_lp::Sets;

/// The end of a cut run at a point at which no set is over.
#[derive(Drop)]
pub struct CutEnd<T> {
    /// The sets of the last program, in the order in which they were added.
    pub cuts: Sets,
    /// The greatest point of the last program.
    pub optimum: Optimum,
    /// What shows that no set is over at the point.
    pub table: T,
}
