//! What is drawn.
use md_num::Nums;

/// An outcome that was drawn, and what each agent or bidder then pays.
#[derive(Drop)]
pub struct Drawn {
    /// The outcome, counted from 0. Of an auction 0 is that the item is kept, and `i` that the `i`-th bidder gets it.
    pub outcome: u32,
    /// The payments, by agent or bidder, in units of one over the denominator; all 0 where payments are off.
    pub pays: Nums,
    /// The denominator of the payments.
    pub den: i128,
}
