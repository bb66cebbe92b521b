//! Why there are no lists of counts for some bidders and kinds of values.

use thiserror::Error;

/// Why the lists of counts are refused.
#[derive(Debug, Clone, Copy, Error)]
pub enum CountsRefusal {
    /// There are more than 20,000 lists.
    #[error("too many lists of counts")]
    TooManyCounts,
    /// There is no memory left.
    #[error("out of memory")]
    Memory,
}
