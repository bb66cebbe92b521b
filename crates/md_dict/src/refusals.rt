//! Why a dictionary does not start, or does not go to another basis.
use md_lp::Entry;
use thiserror::Error;

/// The new basis is too wide: its dictionary has an entry above the width's limit in size. This is the first one, by row, then by column.
#[derive(Clone, Copy, Debug, Error)]
#[error("an entry is too wide")]
pub struct TooWide {
    pub entry: Entry,
}

/// Why a dictionary does not start.
#[derive(Clone, Copy, Debug, Error)]
pub enum StartRefusal {
    /// The first basis is too wide; this is the first entry above the width's limit in size.
    #[error("an entry is too wide")]
    TooWide(Entry),
    /// Memory ran out.
    #[error("out of memory")]
    Memory,
}
