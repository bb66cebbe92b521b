//! Why a cost or a row is refused.
ghost use Rattle.std.specs.Prelude.{◌≡◌};
ghost use Rattle.md_lp.specs.declared.lp_refusal.LpRefusal.TheVariants.{Memory};

use md_num::NoMemory;
use std::alloc::AllocFailed;
use thiserror::Error;

/// Why a cost or a row is not taken: the first of these that holds.
#[derive(Clone, Copy, Debug, Error)]
pub enum LpRefusal {
    /// A term stands at no column of the program, or the columns of the terms do not strictly ascend.
    #[error("a term stands at no column, or out of order")]
    Index,
    /// A number exceeds 2^44 in size.
    #[error("a number is too large")]
    Magnitude,
    /// The program has 8,192 rows already.
    #[error("too many rows")]
    TooManyRows,
    /// Memory ran out.
    #[error("out of memory")]
    Memory,
}

impl From<NoMemory> for LpRefusal {
    ghost from_gives = { λ _ refusal. refusal ≡ Memory };

    fn from(_error: NoMemory) -> LpRefusal {
        LpRefusal::Memory
    }
}

impl<T: Drop> From<AllocFailed<T>> for LpRefusal {
    ghost from_gives = { λ _ refusal. refusal ≡ Memory };

    fn from(_error: AllocFailed<T>) -> LpRefusal {
        LpRefusal::Memory
    }
}
