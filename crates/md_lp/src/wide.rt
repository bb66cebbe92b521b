//! Where a path is left.
use crate::entry::Entry;
use crate::path::Path;

/// Where a path of bases becomes too wide.
#[derive(Debug, Drop)]
pub struct Wide {
    /// The pivots that lead from the first basis to the first wide one.
    pub path: Path,
    /// The first entry of that basis that is above the width's limit in size.
    pub entry: Entry,
}
