//! Standard output and standard error as sinks.
use md_ports::{Sink, SinkError};
use std::io::Write;

/// A stream of the system. It tells nothing of what was written.
#[derive(Drop)]
pub struct StreamSink<W: Write + Drop> {
    stream: W,
    faults: u64,
}

impl<W: Write + Drop> StreamSink<W> {
    /// A sink over a stream.
    pub fn new(stream: W) -> Self {
        StreamSink { stream, faults: 0 }
    }
}

impl<W: Write + Drop> Sink for StreamSink<W> {
    ghost use Rattle.std.specs.Prelude.{None};

    ghost written = { λ _. None };

    ghost faults = { λ s. s.faults };

    fn write(&mut self, bytes: &[u8]) -> Result<(), SinkError> {
        if write_whole(&mut self.stream, bytes) {
            return Ok(());
        }
        self.faults = self.faults.saturating_add(1);
        Err(SinkError::Failed)
    }
}

// Whether all bytes were written. A write that takes no byte is a fault.
fn write_whole<W: Write>(stream: &mut W, bytes: &[u8]) -> bool {
    let mut rest = bytes;
    while !rest.is_empty() {
        match stream.write(rest) {
            Ok(count) if count > 0 => rest = &rest[count..],
            _ => return false,
        }
    }
    stream.flush().is_ok()
}
