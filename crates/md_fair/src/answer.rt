//! What is told of the fairest mechanism of a setting.
use md_lp::Wide;
use md_question::Finding;

/// The fairest mechanism of a setting, or why there is none, or that it is too wide to be found.
#[derive(Drop)]
pub enum FairAnswer {
    /// What the fair program shows, with multipliers of its rows or a ray.
    Found(Finding),
    /// Each path of the fair program has a wide basis: of the forward path and then of the backward one, the pivots to the first
    /// such basis and its first wide entry.
    TooWide { first: Wide, second: Wide },
}
