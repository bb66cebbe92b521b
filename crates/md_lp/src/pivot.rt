//! Pivots.
/// A change of basis: the column enters at the row.
#[derive(Clone, Copy, Debug, PartialEq, Eq)]
pub struct Pivot {
    pub row: u32,
    pub column: u32,
}
