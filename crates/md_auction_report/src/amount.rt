//! What is measured of a bidder with a value.

/// What is measured of a bidder with a value, in units of one over the denominator.
#[derive(Clone, Copy)]
pub(crate) enum Amount {
    /// What it pays.
    Payment,
    /// What the item is worth to it, as often as it wins.
    Item,
}
