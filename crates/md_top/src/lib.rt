//! The commands of mechdes, over any shelf of files and any two sinks for texts.
#![tactic(auto)]

mod call;
mod run;
mod send;

pub use call::mechdes;
