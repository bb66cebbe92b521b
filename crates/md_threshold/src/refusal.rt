//! Why nothing is awarded.

use thiserror::Error;

/// The reason for which nothing is awarded.
#[derive(Debug, Clone, Copy, Error)]
pub enum AwardRefusal {
    /// The draw is not one of as many as tell who wins: as many as the pool that is split has bidders, or one where none is.
    #[error("the draw is out of range")]
    Draw(u32),
    /// There is no memory left.
    #[error("out of memory")]
    Memory,
}
