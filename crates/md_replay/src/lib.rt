//! Listed pivots, carried out one after the other on a linear program.
#![tactic(auto)]

mod carrying;
mod outcome;
mod standing;
mod text;

pub use carrying::replay;
pub use outcome::{Followed, Replay, ReplayError};
pub use text::replay_text;
