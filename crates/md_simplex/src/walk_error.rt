//! Why a path was not walked to its end.
ghost use Rattle.std.specs.Prelude.{◌≡◌};
ghost use Rattle.md_simplex.specs.declared.walk_error.WalkError.TheVariants.{Memory};

use md_lp::Wide;
use md_num::NoMemory;

/// Why the path of one order was not walked to its end.
#[derive(Drop)]
pub enum WalkError {
    /// A basis of the path is too wide.
    TooWide(Wide),
    /// Memory ran out.
    Memory,
}

impl From<NoMemory> for WalkError {
    ghost from_gives = { λ _ error. error ≡ Memory };

    fn from(_error: NoMemory) -> WalkError {
        WalkError::Memory
    }
}
