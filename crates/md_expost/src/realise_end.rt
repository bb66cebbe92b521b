//! What comes of interim odds.
use crate::Masses;

/// What comes of interim odds.
#[derive(Drop)]
pub enum RealiseEnd {
    /// A mass table whose mechanism has exactly the odds.
    Table(Masses),
    /// The set of values that breaks Border's condition most, as a number whose bit j stands for kind j: no mechanism has
    /// the odds.
    Violated(u32),
}
