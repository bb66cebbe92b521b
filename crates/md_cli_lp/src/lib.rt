//! The commands on the linear program of a setting: it is listed, and listed pivots are carried out on it.
#![tactic(auto)]

mod listing;
mod pairs;
mod reduced;
mod replay;
mod rows;

pub use replay::Replay;
pub use rows::Rows;
