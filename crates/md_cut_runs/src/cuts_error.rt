//! Why a cut run did not come to its end.
ghost use Rattle.std.specs.Prelude.{◌≡◌};
ghost use Rattle.md_cut_runs.specs.declared.cuts_error.CutsError.TheVariants.{Memory};

use md_lp::{Sets, Wide};
use md_num::NoMemory;
use thiserror::Error;

/// Why a cut run did not come to a point at which no set is over.
#[derive(Debug, Drop, Error)]
pub enum CutsError {
    /// The program with these cuts, the last one of the run, has a basis that is too wide on each of its two paths: where the
    /// forward path has its first such one, and where the backward path has.
    #[error("a basis of each path of the program with the last cuts is too wide")]
    TooWide {
        cuts: Sets,
        first: Wide,
        second: Wide,
    },
    /// Memory ran out.
    #[error("out of memory")]
    Memory,
}

impl From<NoMemory> for CutsError {
    ghost from_gives = { λ _ error. error ≡ Memory };

    fn from(_error: NoMemory) -> CutsError {
        CutsError::Memory
    }
}
