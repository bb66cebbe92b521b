//! What comes of interim odds in a sale of several units.
use md_num::Nums;

/// A unit table that has the odds, or a set of values that asks for more units than there are.
#[derive(Drop)]
pub enum UnitEnd {
    /// How often units go to bidders with a value, by the rank of the list of counts, then by the kind of value; times the weight of
    /// the profiles with the counts, in units of one over the denominator of the odds.
    Table(Nums),
    /// The set of values that asks for most units more than there are: the bit of a kind is 1 where it has the kind.
    Violated(u32),
}
