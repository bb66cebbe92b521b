//! The commands that judge: whether what an answer claims is so, and whether a mechanism meets all conditions of a setting.
#![tactic(auto)]

mod answer_form;
mod asym_check;
mod audit;
mod check;
mod checked_answer;
mod determ_check;
mod fair_check;
mod records;
mod require_check;
mod unit_check;
mod verdict_text;

pub use answer_form::AnswerForm;
pub use audit::Audit;
pub use check::Check;
pub use checked_answer::CheckedAnswer;
pub use determ_check::DetermCheck;
pub use unit_check::CheckUnits;
