//! What a type of an agent gets and pays.

use md_num::Frac;

/// What a type of an agent is expected to get and to pay, where all report their true types.
#[derive(Clone, Copy)]
pub struct TypeNumbers {
    /// The agent.
    pub agent: u8,
    /// Its type.
    pub kind: u8,
    /// Its expected utility, given the type.
    pub utility: Frac,
    /// Its expected payment, given the type.
    pub payment: Frac,
}
