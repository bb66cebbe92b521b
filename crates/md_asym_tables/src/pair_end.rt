//! What comes of the interim odds of a sale.
use md_num::Nums;

/// What comes of the interim odds of a sale.
#[derive(Drop)]
pub enum PairEnd {
    /// How often the item goes to each agent at each profile, by rank and then by agent, in units of one over the
    /// denominator of the odds and the weight of the profile: the masses of each pair add to its demand.
    Table(Nums),
    /// The set of pairs that asks for most more than there is, as a number whose bit j stands for the pair with number j: no
    /// mechanism has the odds.
    Violated(u32),
}
