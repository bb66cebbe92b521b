//! Flows from source nodes with caps to demands, where each pair of a node and a demand has a room, and the set of demands that is over what the nodes can give to it by most.
#![tactic(auto)]

mod flow;
mod flow_end;
mod labels;
mod net;
mod rooms;
mod search;
mod solving;
mod steps;

pub use flow::Flow;
pub use flow_end::FlowEnd;
pub use net::Net;
pub use solving::{find_end, solve};
pub use steps::Steps;
