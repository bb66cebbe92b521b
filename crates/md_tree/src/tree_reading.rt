//! Reading search trees.
ghost use Rattle.std.specs.Prelude.{◌≡◌, ◌≢◌, Ok, Err, IfOk, MatchResult};
ghost use Rattle.md_tree.specs.AnswerTo.{IsLeafFor};
ghost use Rattle.md_tree.specs.Trees.{IsTree};
ghost use Rattle.md_tree.specs.TreeText.{tree_of};

use crate::node_reading::read_node;
use crate::tree::Tree;
use crate::walking::step;
use md_determ_branching::Walk;
use md_parts::{AnswerRefusal, Reader};
use md_setting::Setting;
use std::alloc::Global;

/// The records of a tree, node by node.
pub(crate) fn read_tree(
    alloc: Global,
    reader: &mut Reader,
    setting: &Setting,
) -> Result<Tree, AnswerRefusal>
    ensures read { MatchResult result
        (λ tree. tree_of setting.now reader.old ≡ Ok (tree, reader.new))
        (λ refusal. refusal ≢ AnswerRefusal.Memory → tree_of setting.now reader.old ≡ Err refusal) }
    ensures known { IfOk result (IsTree setting.now (IsLeafFor setting.now)) }
{
    let mut walk = Walk::new(alloc, setting.space().profiles(), setting.outcomes())?;
    let mut tree = Tree::new(alloc);
    while !walk.is_over() {
        let node = read_node(alloc, reader, setting, walk.fixed())?;
        step(&mut walk, &node);
        tree.push(node)?;
    }
    Ok(tree)
}
