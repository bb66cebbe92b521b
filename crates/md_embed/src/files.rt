//! The two files of a call.
ghost use Rattle.std.specs.Prelude.{◌≡◌, ◌≤◌, ◌+◌, take, vec_len, IfOk, IsErrOf};
ghost use Rattle.md_embed.specs.Files.{file_of, files_in};

use md_ports::{Shelf, ShelfError};
use std::alloc::Global;

/// The bytes of two files. The name `setting` has the first one, and every other name the second.
#[derive(Drop)]
pub struct Files<'a> {
    pub alloc: Global,
    pub setting: &'a [u8],
    pub second: &'a [u8],
}

// The file of a name.
fn file_of<'a>(setting: &'a [u8], second: &'a [u8], name: &str) -> &'a [u8]
    ensures { result.now ≡ file_of setting.now second.now name.now }
{
    if name == "setting" { setting } else { second }
}

// The first bytes: all of them where there are at most `max`, else one more than that.
fn front_of(alloc: Global, bytes: &[u8], max: usize) -> Result<Vec<u8>, ShelfError>
    ensures front { IfOk result (λ front. front.items ≡ take (max + 1) bytes.now) }
    ensures at_most { IfOk result (λ front. vec_len front ≤ max + 1) }
    ensures memory { ¬ IsErrOf result ShelfError.Failed }
{
    let front = if bytes.len() <= max {
        bytes
    } else {
        &bytes[..max + 1]
    };
    Ok(front.to_vec(alloc)?)
}

impl Shelf for Files<'_> {
    ghost use Rattle.md_embed.specs.Files.{files_in};

    ghost content = { λ s. files_in s.setting.now s.second.now };

    ghost faults = { λ _ _. 0 };

    fn read(&mut self, name: &str, max: usize) -> Result<Vec<u8>, ShelfError> {
        front_of(self.alloc, file_of(self.setting, self.second, name), max)
    }
}
