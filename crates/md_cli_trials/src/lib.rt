//! Commands tried over files in memory: one call of each kind, reads and writes that fail, files that end early, and the greatest
//! lengths of files. All other calls are rows of the folder trials/, over the built program.
//!
//! There is nothing here but tests. They stand apart from the crate of the commands, so that this one is proved once.
#![tactic(auto)]

#[cfg(test)]
mod answers;
#[cfg(test)]
mod calling;
#[cfg(test)]
mod calls;
#[cfg(test)]
mod early_ends;
#[cfg(test)]
mod failing;
#[cfg(test)]
mod lengths;
#[cfg(test)]
mod numbers;
#[cfg(test)]
mod settings;
#[cfg(test)]
mod streams;
