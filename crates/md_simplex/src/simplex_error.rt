//! Why a run has no end to tell.
use md_lp::Wide;
use thiserror::Error;

/// Why no path was followed to its end.
#[derive(Debug, Drop, Error)]
pub enum SimplexError {
    /// Each of the two paths has a basis that is too wide: where the forward path has its first such one, and where the backward path has.
    #[error("a basis of each path is too wide")]
    TooWide { first: Wide, second: Wide },
    /// Memory ran out.
    #[error("out of memory")]
    Memory,
}
