//! The files of the system as a shelf.
ghost use Rattle.std.specs.Prelude.{◌≤◌, ◌+◌, IfOk, vec_len};

use md_ports::{Shelf, ShelfError};
use std::alloc::Global;
use std::fs;
use std::io::{ErrorKind, Read};
use std::rt::Files;

/// How many bytes are asked for at a time.
const CHUNK: usize = 8192;

/// The files of the system, by their paths. A path that does not exist is a fault, as any error of the system is
/// but running out of memory. It tells nothing of what files hold, and one count of faults serves all names.
#[derive(Drop)]
pub struct FileShelf<R: Files + Drop> {
    files: R,
    alloc: Global,
    faults: u64,
}

impl<R: Files + Drop> FileShelf<R> {
    /// A shelf over the files of the system.
    pub fn new(files: R, alloc: Global) -> Self {
        FileShelf {
            files,
            alloc,
            faults: 0,
        }
    }
}

impl<R: Files + Drop> Shelf for FileShelf<R> {
    ghost use Rattle.std.specs.Prelude.{None};

    ghost content = { λ _ _. None };

    ghost faults = { λ s _. s.faults };

    fn read(&mut self, name: &str, max: usize) -> Result<Vec<u8>, ShelfError> {
        match read_front(&self.files, self.alloc, name, max) {
            Err(ShelfError::Failed) => {
                self.faults = self.faults.saturating_add(1);
                Err(ShelfError::Failed)
            }
            other => other,
        }
    }
}

// The bytes of a file, or its first `max + 1` bytes, by that many reads at most.
fn read_front<R: Files>(
    files: &R,
    alloc: Global,
    name: &str,
    max: usize,
) -> Result<Vec<u8>, ShelfError>
    ensures { IfOk result (λ bytes. vec_len bytes ≤ max + 1) }
{
    let mut file = fs::open(files, name).map_err(|e| cause_of(e.kind()))?;
    let mut bytes = Vec::new(alloc);
    let mut chunk = [0u8; CHUNK];
    for _ in 0..max.saturating_add(1) {
        let room = max.saturating_add(1).saturating_sub(bytes.len()).min(CHUNK);
        let count = file
            .read(&mut chunk[..room])
            .map_err(|e| cause_of(e.kind()))?;
        if count == 0 {
            break;
        }
        bytes.extend_from_slice(&chunk[..count])?;
    }
    Ok(bytes)
}

fn cause_of(kind: ErrorKind) -> ShelfError {
    match kind {
        ErrorKind::OutOfMemory => ShelfError::Memory,
        _ => ShelfError::Failed,
    }
}
