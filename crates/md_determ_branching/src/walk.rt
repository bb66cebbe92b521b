//! A walk through a search tree in preorder, of which the path of the branches is all that is kept.
ghost use Rattle.std.specs.Prelude.{◌≡◌, ◌≢◌, ◌↔◌, ◌+◌, ◌<◌, ◌≤◌, ◌++◌, ◌==◌, ◌∷◌, [], length, IfOk, IsTrue};
ghost use Rattle.md_determ_branching.specs.Fixed.{fixed_at, nothing_fixed, children_of, AreOutcomes, IsFree};
ghost use Rattle.md_determ_branching.specs.Tour.{current_of, rest_of, left_of};
ghost use Rattle.md_determ_branching.specs.Path.{IsBranched, IsTrail, behind, next_to, opens_of};

use crate::fixed::Fixed;
use md_num::NoMemory;
use std::alloc::Global;
use std::marker::Model;

/// A walk through a search tree in preorder: the node that is visited, and the others that are open.
#[derive(Drop)]
pub struct Walk {
    outcomes: u32,
    // the node that is visited
    fixed: Fixed,
    // the ranks at which the walk branched above it, and room for more
    path: Vec<u32>,
    depth: usize,
    over: bool,
}

// A walk is seen as its open nodes. Behind the node that is visited they are the later siblings of it and of the nodes above.
impl Model for Walk {
    ghost use Rattle.std.specs.Prelude.{length};
    ghost use Rattle.md_determ_branching.specs.Tour.{Tour};
    ghost use Rattle.md_determ_branching.specs.Path.{IsKept, opens_of};

    ghost Value = { Tour };

    ghost view = { λ w. record { outcomes = w.outcomes; ranks = length w.fixed; opens = opens_of w.over w.outcomes w.fixed w.path.items w.depth } };

    ghost invariant = { λ w. IsKept w.outcomes w.fixed w.path.items w.depth };
}

impl Walk {
    /// The walk that begins at the node of so many ranks with nothing fixed. No other call asks for memory.
    pub fn new(alloc: Global, ranks: u32, outcomes: u32) -> Result<Walk, NoMemory>
        requires { 1 ≤ outcomes }
        ensures { IfOk result (λ walk. walk ≡ record { outcomes = outcomes; ranks = ranks; opens = nothing_fixed ranks ∷ [] }) }
    {
        Ok(Walk {
            outcomes,
            fixed: Fixed::none(alloc, ranks)?,
            path: vec![in alloc; 0u32; ranks as usize]?,
            depth: 0,
            over: false,
        })
    }

    /// Whether no node is open any more.
    pub fn is_over(&self) -> bool
        ensures { IsTrue result ↔ (self.now.opens ≡ []) }
    {
        self.over
    }

    /// The node that is visited.
    pub fn fixed(&self) -> &Fixed
        requires { self.now.opens ≢ [] }
        ensures current { result.now ≡ current_of self.now }
        ensures opens { self.now.opens ≡ result.now ∷ rest_of self.now }
        ensures ranks { length result.now ≡ self.now.ranks }
        ensures outcomes { AreOutcomes self.now.outcomes result.now }
    {
        &self.fixed
    }

    /// Goes from the node that is visited, where nothing is fixed at a rank, to its children there.
    pub fn branch(&mut self, rank: u32)
        requires { IsFree (current_of self.old) rank }
        ensures outcomes { self.new.outcomes ≡ self.old.outcomes }
        ensures ranks { self.new.ranks ≡ self.old.ranks }
        ensures opens { self.new.opens ≡ children_of self.old.outcomes (current_of self.old) rank ++ rest_of self.old }

        // One node less may still be visited.
        ensures left { left_of self.new + 1 ≡ left_of self.old }
    {
        self.path[self.depth] = rank;
        self.depth += 1;
        self.fixed.fix(rank, 0);
    }

    /// Goes to the next open node, and to none below the node that is visited.
    pub fn leave(&mut self)
        requires { self.old.opens ≢ [] }
        ensures outcomes { self.new.outcomes ≡ self.old.outcomes }
        ensures ranks { self.new.ranks ≡ self.old.ranks }
        ensures opens { self.new.opens ≡ rest_of self.old }

        // At least this node less may still be visited.
        ensures left { left_of self.new + 1 ≤ left_of self.old }
    {
        self.depth = go_on(&mut self.fixed, &self.path, self.depth, self.outcomes);
        self.over = self.depth == 0;
    }
}

// Turns a node into the first open one behind it, and answers at how many ranks of the path that one was branched; 0 where there
// is none.
fn go_on(fixed: &mut Fixed, path: &Vec<u32>, depth: usize, outcomes: u32) -> usize
    requires room { depth ≤ length path.now.items }
    requires trail { IsTrail outcomes fixed.old path.now.items depth }
    ensures ranks { length fixed.new ≡ length fixed.old }
    ensures trail { IsTrail outcomes fixed.new path.now.items result }
    ensures opens { opens_of (result == 0) outcomes fixed.new path.now.items result ≡ behind outcomes fixed.old path.now.items depth }
{
    let mut left = depth;
    while left > 0 {
        let rank = path[left - 1];
        let next = next_outcome(fixed, rank, outcomes);
        if next < outcomes {
            fixed.fix(rank, next);
            return left;
        }
        fixed.free(rank);
        left -= 1;
    }
    0
}

// The number of the outcome after the one that is fixed at a rank.
fn next_outcome(fixed: &Fixed, rank: u32, outcomes: u32) -> u32
    requires { IsBranched outcomes fixed.now rank }
    ensures { result ≡ next_to (fixed_at fixed.now rank) }
{
    match fixed.outcome(rank) {
        Some(outcome) => outcome + 1,
        None => 0,
    }
}
