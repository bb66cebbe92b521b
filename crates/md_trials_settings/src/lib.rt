//! Calls of the crates that work on settings, where no command shows what they do.
//!
//! There is nothing here but tests. They stand apart from the crates that they call, so that these are proved once.
#![tactic(auto)]

#[cfg(test)]
mod draws;
#[cfg(test)]
mod leasts;
#[cfg(test)]
mod trees;
