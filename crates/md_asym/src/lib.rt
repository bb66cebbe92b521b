//! Answers about the best mechanism of a sale of one item to bidders who differ: what its odds and payments are worth, their texts,
//! and whether what they claim is so.
#![tactic(auto)]

mod asym_answer;
mod checking;
mod mass_records;
mod pair_numbers;
mod reading;
mod sale_answer;
mod worth;
mod writing;

pub use asym_answer::AsymAnswer;
pub use checking::check_asym;
pub use reading::read_asym;
pub use sale_answer::SaleAnswer;
pub use worth::sale_worth;
pub use writing::write_asym;
