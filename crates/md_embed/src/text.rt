//! A text that is written to, and laid into the room of a caller.
ghost use Rattle.std.specs.Prelude.{◌≡◌, ◌++◌, [], Some, length, take, drop};

use md_ports::{Sink, SinkError};
use std::alloc::Global;

/// A text in memory. A write for which there is no memory fails.
#[derive(Drop)]
pub struct Text {
    bytes: Vec<u8>,
    faults: u64,
}

impl Text {
    ghost use Rattle.md_embed.specs.Texts.{held, count_of, laid_in};

    /// An empty text. It takes no memory.
    pub fn new(alloc: Global) -> Self
        ensures empty { held result ≡ [] }
        ensures count { count_of result ≡ 0 }
    {
        Text {
            bytes: Vec::new(alloc),
            faults: 0,
        }
    }

    /// Lays the text into a room, as far as that goes, and gives the length of the whole text.
    pub fn lay_into(&self, room: &mut [u8]) -> usize
        ensures laid { room.new ≡ laid_in room.old (held self.now) }
        ensures length { result ≡ length (held self.now) }
    {
        let count = self.bytes.len().min(room.len());
        room[..count].copy_from_slice(&self.bytes[..count]);
        self.bytes.len()
    }
}

impl Sink for Text {
    ghost use Rattle.md_embed.specs.Texts.{held, count_of};

    ghost written = { λ s. Some (held s) };

    ghost faults = { count_of };

    fn write(&mut self, bytes: &[u8]) -> Result<(), SinkError> {
        if self.bytes.extend_from_slice(bytes).is_ok() {
            return Ok(());
        }
        self.faults = self.faults.saturating_add(1);
        Err(SinkError::Failed)
    }
}
