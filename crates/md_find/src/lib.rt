//! Certificates of linear programs that are found where the stated paths are too wide: walks with rows over denominators of their own, from the first best or from a basis that is feasible. What is found is judged before it is given back, so that nothing of the walk has to be right.
#![tactic(auto)]

mod basis;
mod dictionary;
mod dual;
mod entering;
mod find;
mod find_error;
mod first_best;
mod fraction;
mod fractions;
mod judge;
mod leap;
mod leaving;
mod likeness;
mod multipliers;
mod reading;
mod start;
mod walk;
mod weights;

pub use find::{Start, find_by, find_certificate};
pub use find_error::FindError;
pub use judge::judged;
