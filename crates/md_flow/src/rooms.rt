//! Rooms of nodes for demands, as a net keeps them.
use md_lp::Sets;
use md_num::Nums;

/// How much each node may give to each demand.
#[derive(Drop)]
pub enum Rooms {
    /// As much as its cap to each demand of a set, which it touches, and nothing to another.
    Touched(Sets),
    /// A list, by node and then by demand.
    Listed(Nums),
}
