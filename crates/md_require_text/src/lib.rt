//! The texts of answers about the best mechanism under conditions of a designer.
#![tactic(auto)]

mod answer;
mod required_reading;
mod required_writing;

pub use answer::RequiredAnswer;
pub use required_reading::read_required;
pub use required_writing::write_required;
