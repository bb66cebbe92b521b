//! The fairest mechanism of a general setting: the one under which the agent that gets least on average gets most. Here is the
//! question, and what is told of its answers: their texts, and whether what they claim is so.
#![tactic(auto)]

mod answer;
mod certificates;
mod checking;
mod costs;
mod layout;
mod means;
mod program;
mod question;
mod reading;
mod terms;
mod writing;

pub use answer::FairAnswer;
pub use checking::check_fair;
pub use means::least;
pub use program::fair_program;
pub use question::Fairest;
pub use reading::read_fair;
pub use writing::write_fair;
