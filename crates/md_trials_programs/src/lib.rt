//! Linear programs and their certificates, divisions and flows tried by the public calls that no file reaches: numbers near the width, refusals, and nets
//! that no setting makes.
//!
//! There is nothing here but tests. They stand apart from the crates that they try, so that these are proved once.
#![tactic(auto)]

#[cfg(test)]
mod division_tests;
#[cfg(test)]
mod find_tests;
#[cfg(test)]
mod flow_tests;
#[cfg(test)]
mod lists;
#[cfg(test)]
mod program_tests;
#[cfg(test)]
mod room_tests;
