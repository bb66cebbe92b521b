//! A file of a shelf in memory.
// A file in memory, under its name.
ghost use Rattle.std.specs.Prelude.{◌≡◌, ◌≢◌, ◌+◌, ◌^◌, ◌-◌, ◌<◌, ◌≤◌, ◌++◌, ◌∷◌, [], Some, ℕ, List, position, vec_len, string_bytes, MatchOption, MatchBool, IfOk, IsErrOf, option_map, length, take};

use crate::ShelfError;
use std::alloc::Global;

/// A name, the bytes under it, and how often a read of it failed.
#[derive(Drop)]
pub struct File {
    pub name: String,
    pub bytes: Vec<u8>,
    pub faults: u64,
}

impl File {
    ghost use Rattle.md_ports.specs.Files.{content_in, IsAbsent, IsFirstNamed, is_named, Replaces, CountsFault};

    /// The place of the first file that has a name.
    pub fn place(files: &[File], name: &str) -> Option<usize>
        ensures { MatchOption result (IsAbsent files.now name.now) (λ at. (at < length files.now) × ((d : _) → IsFirstNamed files.now name.now at d)) }
    {
        File::position(files, name)
    }

    /// The bytes of a name, if a file has it.
    pub fn bytes_of<'a>(files: &'a [File], name: &str) -> Option<&'a [u8]>
        ensures { option_map (λ b. b.now) result ≡ content_in files.now name.now }
    {
        match File::place(files, name) {
            Some(at) => Some(files[at].bytes.as_slice()),
            None => None,
        }
    }

    fn position(files: &[File], name: &str) -> Option<usize>
        ensures { result ≡ position (is_named name.now) files.now }
    {
        files.iter().position(|file| file.name.as_str() == name)
    }

    /// Puts bytes in the place of those of a name, or gives them back where no file has it.
    pub fn replace(files: &mut Vec<File>, name: &str, bytes: Vec<u8>) -> Option<Vec<u8>>
        ensures { MatchOption result
            (Replaces files.old.items files.new.items name.now bytes.items)
            (λ back. IsAbsent files.old.items name.now × (back.items ≡ bytes.items) × (files.new.items ≡ files.old.items)) }
    {
        let Some(at) = File::place(files, name) else {
            return Some(bytes);
        };
        let file = &mut files[at];
        file.bytes = bytes;
        None
    }

    /// Counts a fault at a name, and says whether a file has it.
    pub fn raise(files: &mut Vec<File>, name: &str) -> bool
        ensures { MatchBool result
            (CountsFault files.old.items files.new.items name.now)
            (IsAbsent files.old.items name.now × (files.new.items ≡ files.old.items)) }
    {
        let Some(at) = File::place(files, name) else {
            return false;
        };
        let file = &mut files[at];
        file.faults = file.faults.saturating_add(1);
        true
    }
}

/// The first bytes: all of them where there are at most `max`, else one more than that.
pub fn front_of(alloc: Global, bytes: &[u8], max: usize) -> Result<Vec<u8>, ShelfError>
    ensures front { IfOk result (λ front. front.items ≡ take (max + 1) bytes.now) }
    ensures at_most { IfOk result (λ front. vec_len front ≤ max + 1) }
    ensures memory { ¬ IsErrOf result ShelfError.Failed }
{
    let front = if bytes.len() <= max {
        bytes
    } else {
        &bytes[..max + 1]
    };
    Ok(front.to_vec(alloc)?)
}
