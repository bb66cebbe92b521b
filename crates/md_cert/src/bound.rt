//! The bound of a certificate: multipliers of a program's rows.
use md_num::Nums;

/// Multipliers of a program's rows, one of each list for each row.
/// The main multipliers are over the denominator `den`; they show how great a cost can be.
/// The face multipliers have no denominator; they come first wherever pairs are compared.
#[derive(Drop)]
pub struct Bound {
    pub den: i128,
    pub main: Nums,
    pub face: Nums,
}
