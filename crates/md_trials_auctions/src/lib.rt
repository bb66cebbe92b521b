//! Auctions and sales tried by the public calls that no command reaches: odds that are realised in units or by pairs, numbers that
//! make no mass table, and as many lists of counts as may be.
//!
//! There is nothing here but tests. They stand apart from the crates that they try, so that these are proved once.
#![tactic(auto)]

#[cfg(test)]
mod auctions;
#[cfg(test)]
mod count_tests;
#[cfg(test)]
mod mass_tests;
#[cfg(test)]
mod pair_tests;
#[cfg(test)]
mod unit_tests;
