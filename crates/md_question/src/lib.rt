//! Questions about a setting: what a linear program of it is to find, and what is found.
//!
//! A question has a program, which asks more than the setting's conditions or something else than the designer's objective, and
//! says which of the mechanisms that its points are it is about. Which one is best for the designer is the setting's own
//! question.
#![tactic(auto)]

mod asks;
mod finding;
mod unmet;

pub use asks::Asks;
pub use finding::Finding;
pub use unmet::Unmet;
