//! Calls of the crates that hold, read and write texts, where no file shows what they do.
//!
//! There is nothing here but tests. They stand apart from the crates that they call, so that these are proved once.
#![tactic(auto)]

#[cfg(test)]
mod answers;
#[cfg(test)]
mod numbers;
#[cfg(test)]
mod ports;
#[cfg(test)]
mod settings;
