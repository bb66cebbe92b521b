//! A shelf in memory whose reads fail where that is asked for.
// A shelf in memory that can be told to fail.
ghost use Rattle.std.specs.Prelude.{◌≡◌, ◌≢◌, ◌≤◌, ◌+◌, ◌⊎◌, ◌↔◌, ◌++◌, ◌∷◌, [], ℕ, List, Some, None, min, take, length, vec_len, IsTrue, IsErrOf, IfOk, OnOk, OnErr, option_map};
ghost use Rattle.std.specs.Option.{ForSome};

use crate::file::{File, front_of};
use crate::{Shelf, ShelfError};
use std::alloc::{AllocError, Global};

/// Files in memory, and a list of the numbers of the reads that are to fail.
///
/// Reads are numbered from 1, and those past the greatest `u32` have no number. Each name that is there has
/// a count of faults of its own, and all others share one.
#[derive(Drop)]
pub struct MemShelf {
    alloc: Global,
    files: Vec<File>,
    absent: u64,
    calls: u32,
    failing: Vec<u32>,
}

impl MemShelf {
    ghost use Rattle.md_ports.specs.Faults.{Rose};
    ghost use Rattle.md_ports.specs.MemShelf.{content_of, count_of, calls_of, failing_of, last_call, NextFails, IsSame, Faulted};

    /// A shelf with no file, of which no read is to fail. It takes no memory.
    pub fn new(alloc: Global) -> Self
        ensures empty { (n : List ℕ) → content_of result n ≡ None }
        ensures counts { (n : List ℕ) → count_of result n ≡ 0 }
        ensures calls { calls_of result ≡ 0 }
        ensures failing { failing_of result ≡ [] }
    {
        MemShelf {
            alloc,
            files: Vec::new(alloc),
            absent: 0,
            calls: 0,
            failing: Vec::new(alloc),
        }
    }

    /// Puts a file under a name, in place of the one that was there. The name keeps its count.
    pub fn put(&mut self, name: &str, bytes: &[u8]) -> Result<(), AllocError>
        ensures content { OnOk result (content_of self.new name.now ≡ Some bytes.now) }
        ensures others { OnOk result ((n : List ℕ) → n ≢ name.now → content_of self.new n ≡ content_of self.old n) }
        ensures counts { (n : List ℕ) → count_of self.new n ≡ count_of self.old n }
        ensures calls { calls_of self.new ≡ calls_of self.old }
        ensures failing { failing_of self.new ≡ failing_of self.old }
        ensures err { OnErr result (IsSame self.old self.new) }
    {
        let bytes = bytes.to_vec(self.alloc)?;
        if let Some(bytes) = File::replace(&mut self.files, name, bytes) {
            let name = String::from_str(self.alloc, name)?;
            let faults = self.absent;
            self.files.push(File {
                name,
                bytes,
                faults,
            })?;
        }
        Ok(())
    }

    /// Adds to the list of the reads that are to fail.
    pub fn fail_at(&mut self, call: u32) -> Result<(), AllocError>
        ensures ok { OnOk result (failing_of self.new ≡ failing_of self.old ++ call ∷ []) }
        ensures contents { (n : List ℕ) → content_of self.new n ≡ content_of self.old n }
        ensures counts { (n : List ℕ) → count_of self.new n ≡ count_of self.old n }
        ensures calls { calls_of self.new ≡ calls_of self.old }
        ensures err { OnErr result (IsSame self.old self.new) }
    {
        self.failing.push(call)?;
        Ok(())
    }

    /// What lies under a name.
    pub(crate) fn content(&self, name: &str) -> Option<&[u8]>
        ensures { option_map (λ b. b.now) result ≡ content_of self.now name.now }
    {
        File::bytes_of(&self.files, name)
    }

    // Counts a fault at a name.
    fn fault(&mut self, name: &str)
        ensures faulted { Faulted self.old self.new name.now }
        ensures rose { Rose (count_of self.old name.now) (count_of self.new name.now) }
        ensures never_falls { (n : List ℕ) → count_of self.old n ≤ count_of self.new n }
        ensures contents { (n : List ℕ) → content_of self.new n ≡ content_of self.old n }
        ensures calls { calls_of self.new ≡ calls_of self.old }
        ensures failing { failing_of self.new ≡ failing_of self.old }
    {
        if !File::raise(&mut self.files, name) {
            self.absent = self.absent.saturating_add(1);
        }
    }

    // Whether the next read is one that is to fail.
    fn next_fails(&self) -> bool
        ensures { IsTrue result ↔ NextFails self.now }
    {
        self.calls < u32::MAX && self.failing.contains(&(self.calls + 1))
    }
}

impl Shelf for MemShelf {
    ghost use Rattle.md_ports.specs.Faults.{Rose};
    ghost use Rattle.md_ports.specs.MemShelf.{content_of, count_of, calls_of, failing_of, last_call, NextFails, Faulted};

    ghost content = { content_of };

    ghost faults = { count_of };

    /// Fails exactly where the number of the call is listed or the name is not there.
    fn read(&mut self, name: &str, max: usize) -> Result<Vec<u8>, ShelfError>
        ensures whole { IfOk result (λ bytes. ForSome (content_of self.old name.now) (λ all. bytes.items ≡ take (max + 1) all)) }
        ensures at_most { IfOk result (λ bytes. vec_len bytes ≤ max + 1) }

        ensures fails { IsErrOf result ShelfError.Failed ↔ (NextFails self.old ⊎ (content_of self.old name.now ≡ None)) }
        ensures failed { IsErrOf result ShelfError.Failed → Rose (count_of self.old name.now) (count_of self.new name.now) }
        ensures faulted { IsErrOf result ShelfError.Failed → Faulted self.old self.new name.now }
        ensures quiet { (n : List ℕ) → OnOk result (count_of self.new n ≡ count_of self.old n) }
        ensures quiet_memory { (n : List ℕ) → IsErrOf result ShelfError.Memory → count_of self.new n ≡ count_of self.old n }

        ensures stays { (n : List ℕ) → content_of self.new n ≡ content_of self.old n }
        ensures never_falls { (n : List ℕ) → count_of self.old n ≤ count_of self.new n }
        ensures calls { calls_of self.new ≡ min (calls_of self.old + 1) last_call }
        ensures failing { failing_of self.new ≡ failing_of self.old }
    {
        let fails = self.next_fails();
        self.calls = self.calls.saturating_add(1);
        match self.content(name) {
            Some(bytes) if !fails => front_of(self.alloc, bytes, max),
            _ => {
                self.fault(name);
                Err(ShelfError::Failed)
            }
        }
    }
}
