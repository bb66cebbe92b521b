//! Where a search stands, and how it goes on.
ghost use Rattle.std.specs.Prelude.{◌≢◌, [], OnOk};
ghost use Rattle.md_determ_branching.specs.Fixed.{IsWhole};
ghost use Rattle.md_determ_branching.specs.Tour.{current_of};
ghost use Rattle.md_determ.specs.Way.{IsClosed, IsSplit};

use md_determ_branching::Walk;
use md_mech::Mechanism;
use md_num::{NoMemory, Width};
use md_tree::{Node, Tree};

/// A search under way.
#[derive(Drop)]
pub(crate) struct Search {
    /// The width of all paths.
    pub width: Width,
    /// The node that is visited, and those that are open behind it.
    pub walk: Walk,
    /// The nodes that were visited, in preorder.
    pub tree: Tree,
    /// The best mechanism so far.
    pub best: Option<Mechanism>,
}

impl Search {
    /// Leaves the node that is visited, as this leaf.
    pub fn close(&mut self, leaf: Node) -> Result<(), NoMemory>
        requires { self.old.walk.opens ≢ [] }
        ensures { OnOk result (IsClosed leaf self.old self.new) }
    {
        self.tree.push(leaf)?;
        self.walk.leave();
        Ok(())
    }

    /// Goes from the node that is visited to its children at the least rank where nothing is fixed.
    pub fn split(&mut self) -> Result<(), NoMemory>
        requires some_open { self.old.walk.opens ≢ [] }
        requires some_free { ¬ IsWhole (current_of self.old.walk) }
        ensures { OnOk result (IsSplit self.old self.new) }
    {
        let Some(rank) = self.walk.fixed().first_free() else {
            unreachable!();
        };
        self.tree.push(Node::Branch(rank))?;
        self.walk.branch(rank);
        Ok(())
    }
}
