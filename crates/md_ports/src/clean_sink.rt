//! A sink in memory whose writes never fail.
// A sink in memory that never fails.
ghost use Rattle.std.specs.Prelude.{◌≡◌, ◌≤◌, [], Some, None, vec_len, vec_capacity, IsOk, IfOk};
ghost use Rattle.std.specs.Option.{ForSome};

use crate::{Sink, SinkError};
use std::alloc::{AllocError, Global};

/// Bytes in memory, with a fixed room. Where more bytes come it goes on, and tells nothing any more.
#[derive(Drop)]
pub struct CleanSink {
    held: Vec<u8>,
    room: usize,
    overflowed: bool,
    ghost within: { vec_len held ≤ room },
    ghost kept: { room ≤ vec_capacity held },
}

impl CleanSink {
    ghost use Rattle.md_ports.specs.CleanSink.{told, room_of};

    /// An empty sink that takes the memory for `room` bytes.
    pub fn new(alloc: Global, room: u32) -> Result<Self, AllocError>
        ensures empty { IfOk result (λ s. told s ≡ Some []) }
        ensures room { IfOk result (λ s. room_of s ≡ room) }
    {
        let room = room as usize;
        Ok(CleanSink {
            held: Vec::with_capacity(alloc, room)?,
            room,
            overflowed: false,
        })
    }

    /// The bytes so far. Where it does not tell them they are those from before the write that had no room.
    pub fn bytes(&self) -> &[u8]
        ensures { ForSome (told self.now) (λ bytes. result.now ≡ bytes) }
    {
        &self.held
    }
}

impl Sink for CleanSink {
    ghost use Rattle.md_ports.specs.CleanSink.{told, room_of, told_after};

    ghost written = { told };

    ghost faults = { λ _. 0 };

    fn write(&mut self, bytes: &[u8]) -> Result<(), SinkError>
        ensures never_fails { IsOk result }
        ensures told { told self.new ≡ told_after (room_of self.old) (told self.old) bytes.now }
        ensures room { room_of self.new ≡ room_of self.old }
    {
        if bytes.len() > self.room - self.held.len() {
            self.overflowed = true;
        }
        if !self.overflowed {
            let _ = self.held.extend_from_slice(bytes);
        }
        Ok(())
    }
}
