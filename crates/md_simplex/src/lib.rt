//! The simplex paths of a program, of two orders: exact, with the lexicographic rule for the leaving row, and proved to end.
#![tactic(auto)]

mod end;
mod entering;
mod leaving;
mod order;
mod reading;
mod rules;
mod runs;
mod signs;
mod simplex_error;
mod step;
mod walk;
mod walk_error;

pub use end::End;
pub use order::Order;
pub use rules::next;
pub use runs::run;
pub use simplex_error::SimplexError;
pub use step::Step;
