//! mechdes as one call for programs in C, and in whatever calls C.
#![tactic(auto)]

mod call;
mod files;
mod text;
mod words;

pub use call::{Counts, mechdes_call};
