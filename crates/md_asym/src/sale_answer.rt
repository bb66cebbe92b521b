//! What is told of the best mechanism of a sale.
use crate::asym_answer::AsymAnswer;
use md_lp::{Sets, Wide};

/// The best mechanism of a sale, or that it is too wide to be found.
#[derive(Drop)]
pub enum SaleAnswer {
    /// The best mechanism, with what shows it.
    Optimal(AsymAnswer),
    /// Each path of the program with these cuts has a wide basis: of the forward path and then of the backward one, the pivots to
    /// the first such basis and its first wide entry.
    TooWide {
        cuts: Sets,
        first: Wide,
        second: Wide,
    },
}
