//! Answers to questions about a setting, checked: by the setting's conditions and by the rules of certificates over the question's
//! program, and by nothing that solves it.
#![tactic(auto)]

mod checking;
mod checks;
mod faults;
mod verdict;

pub use checking::{check_infeasible, check_optimal, check_unbounded};
pub use checks::Checks;
pub use faults::verdict_by;
pub use verdict::{Reject, Verdict};
