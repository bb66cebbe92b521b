//! The optimum of an auction.
use md_border::Interim;
use md_cert::Bound;
use md_expost::Masses;
use md_lp::Sets;

/// An optimal mechanism of an auction, with what shows that it is one.
#[derive(Drop)]
pub struct AuctionEnd {
    /// The sets of values of the last reduced program, in the order in which they were added.
    pub cuts: Sets,
    /// How often each bidder wins and what it pays, by its value.
    pub interim: Interim,
    /// How often the item goes to bidders with a value, by how many bidders have each value, over the same denominator.
    pub masses: Masses,
    /// Multipliers of the rows of the last reduced program that show that no mechanism is worth more.
    pub bound: Bound,
}
