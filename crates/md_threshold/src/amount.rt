//! What is measured of a bidder with a value.

/// What is measured of a bidder with a value, in units of one over the denominator.
#[derive(Clone, Copy)]
pub(crate) enum Amount {
    /// What it adds to the objective.
    Gain,
    /// Its value as often as it wins.
    Item,
    /// What it pays.
    Payment,
}
