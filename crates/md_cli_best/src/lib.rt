//! The commands that find a best mechanism of any setting. `make` and `drill` have settings by numbers.
#![tactic(auto)]

mod determ;
mod drill;
mod fair;
mod find;
mod make;
mod require;
mod solve;

pub use determ::Determ;
pub use drill::Drill;
pub use fair::Fair;
pub use find::{Find, FindFair, FindFrom};
pub use make::Make;
pub use require::{Conditions, Require};
pub use solve::Solve;
