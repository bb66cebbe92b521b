//! The kinds of rows.
/// What a row demands of its sum over the columns.
#[derive(Clone, Copy)]
pub enum RowKind {
    /// The sum is at most the right side.
    AtMost,
    /// The sum is the right side.
    Exact,
}
