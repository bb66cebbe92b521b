//! A shelf in memory whose reads never fail.
// A shelf in memory that never fails.
ghost use Rattle.std.specs.Prelude.{◌≡◌, ◌≢◌, ◌≤◌, ◌+◌, [], ℕ, List, take, vec_len, IsErrOf, IfOk, OnOk, OnErr};

use crate::file::front_of;
use crate::{MemShelf, Shelf, ShelfError};
use std::alloc::{AllocError, Global};

/// Files in memory, where a name that is not there has an empty file.
#[derive(Drop)]
pub struct CleanShelf {
    alloc: Global,
    shelf: MemShelf,
}

impl CleanShelf {
    ghost use Rattle.md_ports.specs.CleanShelf.{bytes_under};

    /// A shelf on which every file is empty. It takes no memory.
    pub fn new(alloc: Global) -> Self
        ensures { (n : List ℕ) → bytes_under result n ≡ [] }
    {
        CleanShelf {
            alloc,
            shelf: MemShelf::new(alloc),
        }
    }

    /// Puts a file under a name, in place of the one that was there.
    pub fn put(&mut self, name: &str, bytes: &[u8]) -> Result<(), AllocError>
        ensures content { OnOk result (bytes_under self.new name.now ≡ bytes.now) }
        ensures others { OnOk result ((n : List ℕ) → n ≢ name.now → bytes_under self.new n ≡ bytes_under self.old n) }
        ensures err { OnErr result ((n : List ℕ) → bytes_under self.new n ≡ bytes_under self.old n) }
    {
        self.shelf.put(name, bytes)
    }
}

impl Shelf for CleanShelf {
    ghost use Rattle.md_ports.specs.CleanShelf.{bytes_under, told_under};

    ghost content = { told_under };

    ghost faults = { λ _ _. 0 };

    fn read(&mut self, name: &str, max: usize) -> Result<Vec<u8>, ShelfError>
        ensures whole { IfOk result (λ bytes. bytes.items ≡ take (max + 1) (bytes_under self.old name.now)) }
        ensures at_most { IfOk result (λ bytes. vec_len bytes ≤ max + 1) }
        ensures never_fails { ¬ IsErrOf result ShelfError.Failed }
        ensures stays { (n : List ℕ) → bytes_under self.new n ≡ bytes_under self.old n }
    {
        let bytes = self.shelf.content(name).unwrap_or(&[]);
        front_of(self.alloc, bytes, max)
    }
}
