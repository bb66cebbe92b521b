//! The fairest mechanism of a general setting, found: by the paths of its fair program, or off them.
#![tactic(auto)]

mod solving;

pub use solving::{find_fair, solve_fair};
