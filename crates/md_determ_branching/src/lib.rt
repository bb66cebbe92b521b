//! The nodes of a search tree that fix outcomes at ranks, and a walk through such a tree in preorder.
#![tactic(auto)]

mod fixed;
mod walk;

pub use fixed::Fixed;
pub use walk::Walk;
