//! A command carried out over two files in memory, and what it says.

use md_ports::{MemShelf, MemSink};
use md_samples::words;
use md_top::mechdes;
use std::alloc::{AllocError, Global};

/// What a command answered.
#[derive(Drop)]
pub(crate) struct Reply {
    /// The status that it ended with.
    pub(crate) status: u8,
    /// What it printed.
    pub(crate) out: MemSink,
    /// What it said on the other stream.
    pub(crate) err: MemSink,
}

/// Carries a command out over two files, `setting` and `second`, with room for the masses of many counts.
pub(crate) fn carried_out(
    alloc: Global,
    texts: &[&str],
    setting: &[u8],
    second: &[u8],
) -> Result<Reply, AllocError> {
    let words = words(alloc, texts)?;
    let mut shelf = MemShelf::new(alloc);
    shelf.put("setting", setting)?;
    shelf.put("second", second)?;
    let mut out = MemSink::new(alloc, 40_000)?;
    let mut err = MemSink::new(alloc, 100)?;
    let status = mechdes(alloc, &words, &mut shelf, &mut out, &mut err);
    Ok(Reply { status, out, err })
}
