//! What interim odds and payments of an auction do, where one item is sold or several units, and how far they are from truthful:
//! their value, revenue and welfare, what a bidder with each value gets and pays, what it gains at most by telling another value
//! and misses at most of nothing, and which conditions bind.
#![tactic(auto)]

mod amount;
mod auction_report;
mod averages;
mod greatest;
mod greatest_rows;
mod measures;
mod records;
mod reporting;
mod tight;
mod types;
mod value_numbers;
mod worst;

pub use auction_report::AuctionReport;
pub use greatest::Greatest;
pub use records::auction_report_text;
pub use value_numbers::ValueNumbers;
