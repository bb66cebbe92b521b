//! Reading the files of a command.
ghost use Rattle.std.specs.Prelude.{◌≡◌, ◌≢◌, ◌⊎◌, ◌≤◌, ◌<◌, ◌^◌, ℕ, List, IfErr, Err};
ghost use Rattle.std.specs.Option.{ForSome};
ghost use Rattle.md_ports.specs.Faults.{Rose};
ghost use Rattle.md_cli_driver.specs.declared.refusal.Refusal.TheVariants.{ReadFault, Memory};
ghost use Rattle.md_cli_driver.specs.Reading.{Follows, file_of};

use crate::refusal::Refusal;
use md_ports::{Shelf, ShelfError};

/// Reads a file by one call of the shelf; a file longer than the limit is refused.
pub(crate) fn read_file<F: Shelf>(
    shelf: &mut F,
    name: &str,
    limit: usize,
    too_long: Refusal,
) -> Result<Vec<u8>, Refusal>
    requires { limit < 2 ^ 62 }
    ensures told { ForSome (F.content shelf.old name.now) (λ all. Follows (λ bytes. bytes.items) result (file_of limit too_long all)) }
    ensures errors { IfErr result (λ e. (e ≡ ReadFault) ⊎ ((e ≡ Memory) ⊎ (e ≡ too_long))) }
    ensures fault { result ≡ Err ReadFault → too_long ≢ ReadFault → Rose (F.faults shelf.old name.now) (F.faults shelf.new name.now) }
    ensures quiet { (n : List ℕ) → result ≢ Err ReadFault → F.faults shelf.new n ≡ F.faults shelf.old n }
    ensures stays { (n : List ℕ) → F.content shelf.new n ≡ F.content shelf.old n }
    ensures never_falls { (n : List ℕ) → F.faults shelf.old n ≤ F.faults shelf.new n }
{
    match shelf.read(name, limit) {
        Ok(bytes) if bytes.len() > limit => Err(too_long),
        Ok(bytes) => Ok(bytes),
        Err(ShelfError::Failed) => Err(Refusal::ReadFault),
        Err(ShelfError::Memory) => Err(Refusal::Memory),
    }
}
