//! Nodes of a search tree: the outcomes that are fixed at ranks.
ghost use Rattle.std.specs.Prelude.{◌≡◌, ◌<◌, ◌↔◌, ℕ, length, IsNone, IfSome, IfOk};
ghost use Rattle.md_determ_branching.specs.Fixed.{fixed_at, nothing_fixed, with_fixed, with_freed, IsFirstFree, IsWhole};

use md_num::NoMemory;
use std::alloc::Global;
use std::marker::Model;

/// A node of a search tree: for each rank the outcome that is fixed there, or none.
#[derive(Drop)]
pub struct Fixed {
    entries: Vec<Option<u32>>,
}

impl Model for Fixed {
    ghost use Rattle.std.specs.Prelude.{List, Option, ℕ, ◌<◌, ◌^◌, length};

    ghost Value = { List (Option ℕ) };

    ghost view = { λ f. f.entries.items };

    ghost invariant = { λ f. length f.entries.items < 2 ^ 32 };
}

impl Fixed {
    /// The node of so many ranks with nothing fixed.
    pub fn none(alloc: Global, ranks: u32) -> Result<Fixed, NoMemory>
        ensures { IfOk result (λ fixed. fixed ≡ nothing_fixed ranks) }
    {
        Ok(Fixed {
            entries: vec![in alloc; None; ranks as usize]?,
        })
    }

    /// The number of ranks.
    pub fn ranks(&self) -> u32
        ensures { result ≡ length self.now }
    {
        self.entries.len() as u32
    }

    /// The outcome that is fixed at a rank, or none.
    pub fn outcome(&self, rank: u32) -> Option<u32>
        requires { rank < length self.now }
        ensures { result ≡ fixed_at self.now rank }
    {
        self.entries[rank as usize]
    }

    /// Fixes an outcome at a rank, whatever was fixed there.
    pub fn fix(&mut self, rank: u32, outcome: u32)
        requires { rank < length self.old }
        ensures { self.new ≡ with_fixed self.old rank outcome }
    {
        self.entries[rank as usize] = Some(outcome);
    }

    /// Leaves nothing fixed at a rank.
    pub(crate) fn free(&mut self, rank: u32)
        requires { rank < length self.old }
        ensures { self.new ≡ with_freed self.old rank }
    {
        self.entries[rank as usize] = None;
    }

    /// The least rank at which nothing is fixed; none where an outcome is fixed at each rank.
    pub fn first_free(&self) -> Option<u32>
        ensures none { IsNone result ↔ IsWhole self.now }
        ensures first { IfSome result (IsFirstFree self.now) }
    {
        for (rank, entry) in self.entries.iter().enumerate() {
            if entry.is_none() {
                return Some(rank as u32);
            }
        }
        None
    }
}
