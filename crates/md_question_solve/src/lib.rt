//! Questions about a setting, answered: a path of the question's program is followed to its end, and what is read off there is
//! told of the setting's mechanisms. Or a certificate of the program is looked for that may be off the paths, before these are followed.
#![tactic(auto)]

mod finding;
mod read;
mod reading;
mod solving;

pub use finding::find_question;
pub use read::read_program;
pub use reading::Reading;
pub use solving::solve_question;
