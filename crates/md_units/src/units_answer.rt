//! The optimum of a sale of several units.
use md_border::Interim;
use md_cert::Bound;
use md_lp::Sets;
use md_num::{Frac, Nums};

/// An optimal mechanism of a sale of several units, with what shows that it is one.
#[derive(Drop)]
pub struct UnitsAnswer {
    /// What the mechanism is worth to the designer, in least terms.
    pub value: Frac,
    /// The sets of values of the last reduced program, in the order in which they were added.
    pub cuts: Sets,
    /// How often each bidder wins and what it pays, by its value.
    pub interim: Interim,
    /// How often units go to bidders with a value, by the rank of the list of counts, then by the kind of value, over the same
    /// denominator.
    pub masses: Nums,
    /// Multipliers of the rows of the last reduced program that show that no mechanism is worth more.
    pub bound: Bound,
}
