//! Why no certificate is found.
use md_num::NoMemory;
use std::alloc::{AllocError, AllocFailed};

/// Why a start leads to no certificate.
#[derive(Clone, Copy)]
pub enum FindError {
    /// The program has no such start, or the walk cannot go on from it.
    NoPlace,
    /// The columns of a basis depend on each other, or are too many or too few.
    Singular,
    /// A number of a row has more than 126 bits.
    TooWide,
    /// A number of the certificate has more than 62 bits.
    TooLong,
    /// The walk makes too many pivots.
    Steps,
    /// What was found does not show what it claims.
    NotValid,
    /// Memory ran out.
    Memory,
}

impl From<NoMemory> for FindError {
    fn from(_error: NoMemory) -> FindError {
        FindError::Memory
    }
}

impl From<AllocError> for FindError {
    fn from(_error: AllocError) -> FindError {
        FindError::Memory
    }
}

impl<T: Drop> From<AllocFailed<T>> for FindError {
    fn from(_error: AllocFailed<T>) -> FindError {
        FindError::Memory
    }
}
