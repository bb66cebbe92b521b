//! Linear programs by their conditions. A condition is a form: what its left side makes of a number for each column, its
//! right side, and whether the left side is to be at most or the same as that. What a program says is said of its forms.
#![tactic(auto)]

mod rows;
mod terms;

pub use rows::{push_form, want_of};
pub use terms::push_term;
