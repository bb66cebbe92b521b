//! What comes of a net.
use md_num::Nums;

/// What comes of a net. Amounts are listed by source node, and then by demand.
#[derive(Drop)]
pub enum FlowEnd {
    /// The amounts of a flow that gives each demand exactly.
    Full(Nums),
    /// The largest set that is over by most what the nodes can give to it, and the amounts of a part flow that carries all demands but what the set is over by.
    Cut { set: u32, amounts: Nums },
}
