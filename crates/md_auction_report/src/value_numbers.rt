//! What a bidder with a value gets and pays.

use md_num::Frac;

/// What a bidder with a value expects to get and to pay, where all tell their true values.
#[derive(Clone, Copy)]
pub struct ValueNumbers {
    /// The kind of the value.
    pub kind: u32,
    /// Its expected utility.
    pub utility: Frac,
    /// Its expected payment.
    pub payment: Frac,
}
