//! What comes of listed pivots.
ghost use Rattle.std.specs.Prelude.{◌≡◌};
ghost use Rattle.md_replay.specs.declared.outcome.ReplayError.TheVariants.{Memory};

use md_lp::Entry;
use md_num::{NoMemory, Nums};
use thiserror::Error;

/// How many of the pivots that were carried out, from the first one on, are the next ones by the rules of each order.
#[derive(Clone, Copy)]
pub struct Followed {
    /// Where the least column is tried first.
    pub forward: u64,
    /// Where the greatest column is tried first.
    pub backward: u64,
}

/// What came of listed pivots that were carried out from the first basis of a program on.
#[derive(Drop)]
pub struct Replay {
    /// The denominator of the dictionary of each basis that is not wide, from the first basis on.
    pub dens: Nums,
    /// The greatest size of an entry of the same dictionaries.
    pub greatest: Nums,
    /// The first wide entry of the basis at which the pivots were left, if that basis is wide.
    pub wide: Option<Entry>,
    /// How many of the pivots that were carried out are those of the program's paths.
    pub followed: Followed,
}

/// Why pivots are refused.
#[derive(Clone, Copy, Debug, Error)]
pub enum ReplayError {
    /// The pivot of this number, counted from 1, cannot be carried out.
    #[error("pivot refused")]
    Pivot(u64),
    /// There is no memory.
    #[error("want of memory")]
    Memory,
}

impl From<NoMemory> for ReplayError {
    ghost from_gives = { λ _ error. error ≡ Memory };

    fn from(_error: NoMemory) -> ReplayError {
        ReplayError::Memory
    }
}
