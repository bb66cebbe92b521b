//! Cut runs: programs that are solved again and again, each time with one more cut, until no set of places is over.
//!
//! A set of places is a number: the bit of place j, counted from 0, is 1 where the set has it. A set may be over at a point;
//! a cut of a set is a row that every point meets at which the set is not over. There are too many sets for a row each, so
//! a run begins with the sets of one place each, and adds the worst set at the point of each program, until there is none.
#![tactic(auto)]

mod cut_end;
mod cut_program;
mod cuts_error;
mod optimum;
mod running;
mod turn;

pub use cut_end::CutEnd;
pub use cut_program::{CutProgram, Worst};
pub use cuts_error::CutsError;
pub use optimum::Optimum;
pub use running::cut_run;
