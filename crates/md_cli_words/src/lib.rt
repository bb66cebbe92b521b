//! The words of a call: which command they ask for, with the names of its files, its width and its numbers.
#![tactic(auto)]

mod command;
mod cut;
mod form;
mod order;

pub use command::Command;
pub use order::{Order, order_of};
