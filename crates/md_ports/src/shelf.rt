//! Shelves: where files are read from by name.
// Where files are read from.
ghost use Rattle.std.specs.Prelude.{◌≡◌, ◌≤◌, ◌+◌, ℕ, List, Option, take, vec_len, IfOk, OnOk, IsErrOf};
ghost use Rattle.std.specs.Option.{ForSome};
ghost use Rattle.md_ports.specs.Faults.{Rose};
ghost use Rattle.md_ports.specs.declared.shelf.ShelfError.TheVariants.{Memory};

use std::alloc::AllocError;
use thiserror::Error;

/// Why a read gave no bytes.
#[derive(Clone, Copy, Debug, Error)]
pub enum ShelfError {
    /// The shelf failed, which raised the count of the name that was asked for.
    #[error("the shelf failed")]
    Failed,
    /// There was no memory for the bytes.
    #[error("want of memory")]
    Memory,
}

impl From<AllocError> for ShelfError {
    ghost from_gives = { λ _ e. e ≡ Memory };

    fn from(_: AllocError) -> Self {
        ShelfError::Memory
    }
}

/// A place that files are read from by name.
///
/// A proof may ask what lies under a name, where the shelf tells it, and how often a name has failed.
pub trait Shelf {
    /// What lies under a name; `None` where the shelf does not tell.
    ghost content: { Self → List ℕ → Option (List ℕ) };

    /// How often a name has failed.
    ghost faults: { Self → List ℕ → ℕ };

    /// Reads the file of a name: the whole of it where it has at most `max` bytes, else its first `max + 1`.
    /// So a file is too long exactly where more than `max` bytes come.
    fn read(&mut self, name: &str, max: usize) -> Result<Vec<u8>, ShelfError>
        ensures whole { IfOk result (λ bytes. ForSome (content self.old name.now) (λ all. bytes.items ≡ take (max + 1) all)) }
        ensures at_most { IfOk result (λ bytes. vec_len bytes ≤ max + 1) }

        // It does not give up by itself: a failure is counted at the name that was asked for.
        ensures failed { IsErrOf result ShelfError.Failed → Rose (faults self.old name.now) (faults self.new name.now) }
        ensures quiet { (n : List ℕ) → OnOk result (faults self.new n ≡ faults self.old n) }
        ensures quiet_memory { (n : List ℕ) → IsErrOf result ShelfError.Memory → faults self.new n ≡ faults self.old n }

        // What lies on the shelf stays, and no count ever falls.
        ensures stays { (n : List ℕ) → content self.new n ≡ content self.old n }
        ensures never_falls { (n : List ℕ) → faults self.old n ≤ faults self.new n };
}
