//! The two orders of columns.
/// In which order the columns are tried where one is to enter.
#[derive(Clone, Copy)]
pub enum Order {
    /// The least column first.
    Forward,
    /// The greatest column first.
    Backward,
}
