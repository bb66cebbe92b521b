//! What a check of a list finds.
use md_num::Frac;

/// The verdict on a list of bids: that all conditions hold, or the first one that fails, with its numbers. Sums are by the
/// weights of each group divided by their greatest common divisor, and fractions are in least terms. The values of a group
/// are numbered from 0, from the least one up.
#[derive(Clone, Copy)]
pub enum ListVerdict {
    /// No rule is better than that of the list, and what is told of it is right.
    Valid,
    /// The list claims nothing.
    Undecided,
    /// Up to this value the gains of a record, times the denominator of its level, are not above its weights, times the
    /// numerator; or up to its greatest value they are another number.
    Inside {
        group: u32,
        value: usize,
        left: i128,
        right: i128,
    },
    /// From this value on, what stands in no record of the group would bring something: gains, or none and some benefit.
    Unlisted {
        group: u32,
        value: usize,
        gain: i128,
        benefit: i128,
    },
    /// The record at this place brings more than the one before it, or less than nothing.
    Order {
        place: usize,
    },
    /// What the designer maximises is this.
    Value(Frac),
    /// All payments are this.
    Revenue(Frac),
    /// What slots are worth to those who get them is this.
    Welfare(Frac),
}
