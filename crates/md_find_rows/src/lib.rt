//! Rows of whole numbers of up to 126 bits, each over a denominator of its own, and pivots among them. What they mean is not stated: a search goes by them, and what it finds is judged.
#![tactic(auto)]

mod combination;
mod divisor;
mod narrow;
mod row;
mod table;

pub use row::Row;
pub use table::Table;
