//! Terms of a row, as they are written.
/// A coefficient of a row that is written down, at its column.
#[derive(Clone, Copy)]
pub struct Term {
    pub column: u32,
    pub value: i128,
}
