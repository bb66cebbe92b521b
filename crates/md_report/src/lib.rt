//! What a mechanism does, and how far it is from truthful: its value, revenue and welfare, what each type gets and pays, what
//! each agent gains at most by a false report and misses at most of its outside utility, and which conditions bind.
#![tactic(auto)]

mod amount;
mod averages;
mod blocks;
mod deficit;
mod demand;
mod least_paid;
mod measures;
mod names;
mod records;
mod report;
mod reporting;
mod shortfalls;
mod tight;
mod type_numbers;
mod types;
mod worst;
mod worst_records;
mod worst_rows;

pub use deficit::Deficit;
pub use records::{number_record, report_text};
pub use report::Report;
pub use type_numbers::TypeNumbers;
pub use worst::Worst;
pub use worst_records::with_fraction;
