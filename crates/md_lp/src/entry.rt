//! Entries of a dictionary, as they are told.
/// An entry of a dictionary with its place: `num` over the dictionary's denominator `den`.
#[derive(Clone, Copy, Debug)]
pub struct Entry {
    pub row: u32,
    pub column: u32,
    pub num: i128,
    pub den: i128,
}
