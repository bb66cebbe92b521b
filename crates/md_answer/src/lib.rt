//! Answers about general settings and auctions, interim odds and mass tables as texts of records.
#![tactic(auto)]

mod answer;
mod auction_kind;
mod auction_reading;
mod auction_table;
mod auction_writing;
mod interim_records;
mod kind;
mod mass_reading;
mod mass_records;
mod odds_file;
mod pivots_file;
mod reading;
mod reduced;
mod supply;
mod writing;

pub use answer::Answer;
pub use auction_reading::read_auction_answer;
pub use auction_table::read_auction_table;
pub use auction_writing::write_auction_answer;
pub use interim_records::push_interim;
pub use mass_records::push_masses;
pub use md_parts::AnswerRefusal;
pub use odds_file::read_odds;
pub use pivots_file::{Pivots, read_pivots};
pub use reading::read_answer;
pub use supply::Supply;
pub use writing::write_answer;
