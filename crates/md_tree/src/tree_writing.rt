//! Writing search trees.
ghost use Rattle.std.specs.Prelude.{◌≡◌, ◌++◌, ◌∷◌, [], pos, codes, OnOk};
ghost use Rattle.md_parts.specs.Rows.{bound_rows, face_rows, mechanism_rows};
ghost use Rattle.md_determ_node.specs.NodeProgram.{IsNode};
ghost use Rattle.md_tree.specs.AnswerTo.{IsLeafFor};
ghost use Rattle.md_tree.specs.Trees.{IsTree};
ghost use Rattle.md_tree.specs.Visits.{IsNodeFor};
ghost use Rattle.md_tree.specs.Rows.{rows_at, tree_rows};

use crate::node::Node;
use crate::tree::Tree;
use crate::walking::{row_count_at, step};
use md_determ_branching::{Fixed, Walk};
use md_num::NoMemory;
use md_parts::{push_bound, push_face, push_mechanism, push_numbers};
use md_records::Row;
use md_setting::Setting;
use std::alloc::Global;

// Adds the record that says which leaf follows.
fn push_leaf(alloc: Global, to: &mut Vec<Row>, word: &str) -> Result<(), NoMemory>
    ensures { OnOk result (to.new.items ≡ to.old.items ++ (codes "leaf" ∷ word.now ∷ []) ∷ []) }
{
    let named = Row::new(alloc).with(b"leaf")?;
    to.push(named.with(word.as_bytes())?)?;
    Ok(())
}

// Adds the records of a node where this is fixed.
fn push_node(
    alloc: Global,
    to: &mut Vec<Row>,
    setting: &Setting,
    fixed: &Fixed,
    node: &Node,
) -> Result<(), NoMemory>
    requires fixed { IsNode setting.now fixed.now }
    requires node { IsNodeFor setting.now fixed.now node.now }
    ensures { OnOk result (to.new.items ≡ to.old.items ++ rows_at setting.now fixed.now node.now) }
{
    match node {
        Node::Branch(rank) => push_numbers(alloc, to, "branch", &[i128::from(*rank)]),
        Node::Infeasible { face } => {
            push_leaf(alloc, to, "infeasible")?;
            push_face(alloc, to, row_count_at(setting, fixed), face)
        }
        Node::Optimal { mechanism, bound } => {
            push_leaf(alloc, to, "optimal")?;
            push_mechanism(alloc, to, setting, mechanism)?;
            push_bound(alloc, to, row_count_at(setting, fixed), bound)
        }
    }
}

/// Adds the records of a tree, node by node.
pub(crate) fn push_tree(
    alloc: Global,
    to: &mut Vec<Row>,
    setting: &Setting,
    tree: &Tree,
) -> Result<(), NoMemory>
    requires { IsTree setting.now (IsLeafFor setting.now) tree.now }
    ensures { OnOk result (to.new.items ≡ to.old.items ++ tree_rows setting.now tree.now) }
{
    let mut walk = Walk::new(alloc, setting.space().profiles(), setting.outcomes())?;
    for place in 0..tree.len() {
        let node = tree.get(place);
        push_node(alloc, to, setting, walk.fixed(), node)?;
        step(&mut walk, node);
    }
    Ok(())
}
