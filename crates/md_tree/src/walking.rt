//! The node that a walk visits: how many rows its program has, and the way on behind it.
ghost use Rattle.std.specs.Prelude.{◌≡◌, ◌≢◌, ◌≤◌, [], length};
ghost use Rattle.md_determ_branching.specs.Tour.{current_of, rest_of};
ghost use Rattle.md_determ_node.specs.NodeProgram.{IsNode, fixed_count, row_count_of};
ghost use Rattle.md_tree.specs.Visits.{MayStand, opens_after};

use crate::node::Node;
use md_determ_branching::{Fixed, Walk};
use md_setting::Setting;

// At how many ranks an outcome is fixed.
fn fixed_count(fixed: &Fixed) -> u32
    ensures count { result ≡ fixed_count fixed.now }
    ensures few { result ≤ length fixed.now }
{
    let mut count = 0;
    for rank in 0..fixed.ranks() {
        if fixed.outcome(rank).is_some() {
            count += 1;
        }
    }
    count
}

/// The number of rows of the program of what is fixed at a node.
pub(crate) fn row_count_at(setting: &Setting, fixed: &Fixed) -> u32
    requires { IsNode setting.now fixed.now }
    ensures { result ≡ row_count_of setting.now fixed.now }
{
    let few = setting.space().profiles();
    prove!(few <= 1024);
    setting.rows() + fixed_count(fixed)
}

/// Goes on behind a node: to the first child of a branch, and from a leaf to the next open node.
pub(crate) fn step(walk: &mut Walk, node: &Node)
    requires some { walk.old.opens ≢ [] }
    requires stands { MayStand (current_of walk.old) node.now }
    ensures outcomes { walk.new.outcomes ≡ walk.old.outcomes }
    ensures ranks { walk.new.ranks ≡ walk.old.ranks }
    ensures opens { walk.new.opens ≡ opens_after walk.old.outcomes (current_of walk.old) node.now (rest_of walk.old) }
{
    match node {
        Node::Branch(rank) => walk.branch(*rank),
        Node::Infeasible { .. } | Node::Optimal { .. } => walk.leave(),
    }
}
