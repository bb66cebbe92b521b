//! The mechanism in an answer about a general setting, whichever command printed the answer, with the conditions of the designer that the
//! answer names.
#![tactic(auto)]

mod proposal;
mod reading;

pub use proposal::Proposal;
pub use reading::{names_another_kind, read_mechanism_text};
