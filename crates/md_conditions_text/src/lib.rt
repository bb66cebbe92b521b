//! The texts of conditions that a designer adds to those of a setting.
#![tactic(auto)]

mod condition_reading;
mod condition_writing;
mod fields_reading;
mod kind;
mod names;
mod narrow;
mod reading;

pub use condition_writing::push_conditions;
pub use narrow::rows_of;
pub use reading::{read_all, read_conditions, skip};
