//! Direct mechanisms.
use md_num::Nums;

/// A direct mechanism of a general setting: for each profile of reported types a lottery over the outcomes,
/// and what each agent pays. All numbers are in units of one over the denominator.
#[derive(Drop)]
pub struct Mechanism {
    /// The denominator of all chances and payments.
    pub den: i128,
    /// The chances, by the rank of the profile, then by outcome.
    pub chances: Nums,
    /// The payments, by the rank of the profile, then by agent; all 0 where payments are off.
    pub pays: Nums,
}
