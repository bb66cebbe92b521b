//! The exact dictionary of a basis of a linear program: whole numbers over one denominator, in least terms.
#![tactic(auto)]

mod copies;
mod dict;
mod draft;
mod fill;
mod first;
mod multiples;
mod old_rows;
mod refusals;
mod renewal;
mod restore;
mod rows;
mod sizes;
mod step;
mod wide;

pub use dict::Dict;
pub use refusals::{StartRefusal, TooWide};
