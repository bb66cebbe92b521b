//! Mass tables.
use md_num::Nums;

/// How often the item goes to bidders with a value, by how many bidders have each value: the weight of the profiles with
/// the counts, as often as some bidder with the value gets the item. All numbers are in units of one over the denominator.
#[derive(Drop)]
pub struct Masses {
    /// The denominator of all masses.
    pub den: i128,
    /// The masses, by the rank of the list of counts, then by the kind of value.
    pub rows: Nums,
}
