//! Lists of bids as they are found, read and printed.

use md_num::Frac;

/// A record of a list: of the values of a group those from number `first` up to, and without, number `stop`, counted from 0.
#[derive(Clone, Copy)]
pub struct Ranked {
    pub group: u32,
    pub first: usize,
    pub stop: usize,
}

/// The best list of an auction, with the virtual value of each record.
#[derive(Drop)]
pub struct BestList {
    pub ranks: Vec<Ranked>,
    pub levels: Vec<Frac>,
}

/// What a list brings on average over all profiles, each in least terms.
#[derive(Clone, Copy)]
pub struct Averages {
    /// What the designer maximises.
    pub value: Frac,
    /// All payments.
    pub revenue: Frac,
    /// What slots are worth to those who get them.
    pub welfare: Frac,
}

/// A list of bids that is printed or read. One that claims to be best has the virtual value of each record, and one of one's own
/// has none. The averages are left out where their sums are too large.
#[derive(Drop)]
pub struct ListAnswer {
    pub ranks: Vec<Ranked>,
    pub levels: Option<Vec<Frac>>,
    pub averages: Option<Averages>,
}
