//! The check of an answer about a general setting, an auction or a sale of several units: by their conditions and by the rules
//! of certificates, and by nothing that the solver does.
#![tactic(auto)]

mod auction;
mod checking;
mod value;

pub use auction::check_auction;
pub use checking::check;
pub use md_question_check::{Reject, Verdict};
