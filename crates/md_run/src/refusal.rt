//! Why nothing is drawn.

use thiserror::Error;

/// The first reason, in this order, for which nothing is drawn.
#[derive(Debug, Clone, Copy, Error)]
pub enum DrawRefusal {
    /// The answer has no mechanism and no masses.
    #[error("the answer has nothing to draw of")]
    NoTable,
    /// There is not one report for each agent, or a report is none of the agent's.
    #[error("a report is missing or out of range")]
    Profile,
    /// A draw is out of its range.
    #[error("a draw is out of range")]
    Draw,
    /// There is no memory left.
    #[error("out of memory")]
    Memory,
}
