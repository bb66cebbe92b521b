//! What commands have in common: reading a setting and a second file, why a command is not carried out, and the order in which
//! all of this is done.
#![tactic(auto)]

mod answer_text;
mod answered;
mod no_file;
mod one_file;
mod read;
mod refusal;
mod setting_file;
mod status;
mod two_files;

pub use answer_text::AnswerText;
pub use answered::Answered;
pub use no_file::{NoFile, NumberRefused, of_none};
pub use one_file::{OneFile, of_one};
pub use refusal::{Refusal, want_of_memory};
pub use setting_file::{auction, general, has_no_groups, is_auction, is_general};
pub use status::{
    ANSWER_REFUSED, ARGUMENT_REFUSED, DONE, INFEASIBLE, NO_MEMORY, READ_FAULT, REJECTED,
    SETTING_REFUSED, TOO_WIDE, UNBOUNDED, UNDECIDED, USAGE, VIOLATED, WRITE_FAULT,
};
pub use two_files::{TwoFiles, of_two};
