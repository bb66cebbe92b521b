//! The best mechanism of a sale.
use md_border::Interim;
use md_cert::Bound;
use md_lp::Sets;
use md_num::{Frac, Nums};

/// The best mechanism of a sale, with what shows that it is one. Pairs are those of a bidder and one of its types, by bidder,
/// then by type.
#[derive(Drop)]
pub struct AsymAnswer {
    /// What the mechanism is worth to the designer.
    pub value: Frac,
    /// How often the bidder of each pair has the item with its type, on average over the types of the others, and what it pays.
    pub interim: Interim,
    /// How often the item goes to each bidder at each profile of types, by rank and then by bidder, times the weight of the
    /// profile, over the denominator of the odds.
    pub masses: Nums,
    /// The sets of pairs that the program has cuts for, in the order of its rows.
    pub cuts: Sets,
    /// Multipliers of the rows of that program that show that no mechanism is worth more.
    pub bound: Bound,
}
