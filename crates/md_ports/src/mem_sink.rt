//! A sink in memory whose writes fail where that is asked for.
// A sink in memory that can be told to fail.
ghost use Rattle.std.specs.Prelude.{◌≡◌, ◌≢◌, ◌≤◌, ◌<◌, ◌+◌, ◌⊎◌, ◌↔◌, ◌++◌, [], ℕ, Some, None, min, take, length, vec_len, vec_capacity, IsSome, IsErr, IfOk, OnOk, OnErr};

use crate::{Sink, SinkError};
use std::alloc::{AllocError, Global};
use std::collections::BTreeMap;

/// Bytes in memory, with a fixed room, and the writes that are to fail.
///
/// Writes are numbered from 1, and those past the greatest `u32` have no number.
#[derive(Drop)]
pub struct MemSink {
    held: Vec<u8>,
    room: usize,
    calls: u32,
    failing: BTreeMap<u32, u32>,
    faults: u64,
    ghost within: { vec_len held ≤ room },
    ghost kept: { room ≤ vec_capacity held },
}

impl MemSink {
    ghost use Rattle.md_ports.specs.MemSink.{held, room_of, count_of, calls_of, taken_at, next_taken, front_taken};

    /// An empty sink that takes the memory for `room` bytes. No write is to fail.
    pub fn new(alloc: Global, room: u32) -> Result<Self, AllocError>
        ensures empty { IfOk result (λ s. held s ≡ []) }
        ensures room { IfOk result (λ s. room_of s ≡ room) }
        ensures count { IfOk result (λ s. count_of s ≡ 0) }
        ensures calls { IfOk result (λ s. calls_of s ≡ 0) }
        ensures failing { IfOk result (λ s. (call : ℕ) → taken_at s call ≡ None) }
    {
        let room = room as usize;
        Ok(MemSink {
            held: Vec::with_capacity(alloc, room)?,
            room,
            calls: 0,
            failing: BTreeMap::new(alloc),
            faults: 0,
        })
    }

    /// Lists a write that is to fail after it took the first `taken` bytes of its piece, or as many as the
    /// piece has and the room fits. It replaces what was listed of that write.
    pub fn fail_at(&mut self, call: u32, taken: u32) -> Result<(), AllocError>
        ensures listed { OnOk result (taken_at self.new call ≡ Some taken) }
        ensures others { OnOk result ((n : ℕ) → n ≢ call → taken_at self.new n ≡ taken_at self.old n) }
        ensures err { OnErr result ((n : ℕ) → taken_at self.new n ≡ taken_at self.old n) }
        ensures held { held self.new ≡ held self.old }
        ensures room { room_of self.new ≡ room_of self.old }
        ensures count { count_of self.new ≡ count_of self.old }
        ensures calls { calls_of self.new ≡ calls_of self.old }
    {
        self.failing.insert(call, taken)?;
        Ok(())
    }

    /// The bytes so far.
    pub fn bytes(&self) -> &[u8]
        ensures { result.now ≡ held self.now }
    {
        &self.held
    }

    // How many bytes the next write takes before it fails, if it is to fail.
    fn next_taken(&self) -> Option<u32>
        ensures { result ≡ next_taken self.now }
    {
        if self.calls < u32::MAX {
            self.failing.get(&(self.calls + 1)).copied()
        } else {
            None
        }
    }
}

impl Sink for MemSink {
    ghost use Rattle.md_ports.specs.Faults.{Rose, next_count};
    ghost use Rattle.md_ports.specs.MemShelf.{last_call};
    ghost use Rattle.md_ports.specs.MemSink.{told, held, room_of, count_of, calls_of, taken_at, next_taken, front_taken};

    ghost written = { told };

    ghost faults = { count_of };

    /// Fails exactly where the number of the call is listed or the piece goes past the room.
    fn write(&mut self, bytes: &[u8]) -> Result<(), SinkError>
        ensures fails { IsErr result ↔ (IsSome (next_taken self.old) ⊎ (room_of self.old < length (held self.old) + length bytes.now)) }
        ensures whole { OnOk result (held self.new ≡ held self.old ++ bytes.now) }
        ensures front { OnErr result (held self.new ≡ held self.old ++ take (front_taken self.old (length bytes.now)) bytes.now) }

        ensures quiet { OnOk result (count_of self.new ≡ count_of self.old) }
        ensures counted { OnErr result (count_of self.new ≡ next_count (count_of self.old)) }
        ensures failed { IsErr result → Rose (count_of self.old) (count_of self.new) }
        ensures never_falls { count_of self.old ≤ count_of self.new }

        ensures room { room_of self.new ≡ room_of self.old }
        ensures calls { calls_of self.new ≡ min (calls_of self.old + 1) last_call }
        ensures failing { (call : ℕ) → taken_at self.new call ≡ taken_at self.old call }
    {
        let listed = self.next_taken();
        self.calls = self.calls.saturating_add(1);
        let fits = bytes.len().min(self.room - self.held.len());
        let taken = match listed {
            Some(taken) => fits.min(taken as usize),
            None => fits,
        };
        let _ = self.held.extend_from_slice(&bytes[..taken]);
        if listed.is_some() || fits < bytes.len() {
            self.faults = self.faults.saturating_add(1);
            return Err(SinkError::Failed);
        }
        Ok(())
    }
}
