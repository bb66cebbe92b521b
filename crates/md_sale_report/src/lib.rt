//! What interim odds and payments of a sale do, and how far they are from truthful: their value, revenue and welfare, what each
//! type gets and pays, what each agent gains at most by a false report and misses at most of nothing, and which conditions
//! bind.
#![tactic(auto)]

mod cuts;
mod own_numbers;
mod records;
mod reporting;
mod sale_report;

pub use records::sale_report_text;
pub use sale_report::SaleReport;
