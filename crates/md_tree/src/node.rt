//! The nodes of search trees.
use md_cert::Bound;
use md_mech::Mechanism;
use md_num::Nums;

/// A node of a search for the best deterministic mechanism. At each node outcomes are fixed at some profiles: those that the
/// branches above it have fixed.
#[derive(Drop)]
pub enum Node {
    /// The node branches at the profile of this rank, where nothing is fixed: it has a child for each outcome, in their order,
    /// that fixes the outcome there.
    Branch(u32),
    /// Multipliers of the rows of the node's program that show that no admissible mechanism has what is fixed here.
    Infeasible { face: Nums },
    /// A mechanism with multipliers of the rows of the node's program that show that no admissible mechanism that has what is
    /// fixed here is worth more.
    Optimal { mechanism: Mechanism, bound: Bound },
}
