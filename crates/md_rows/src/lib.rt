//! The linear program of a general setting: its conditions as rows, and the mechanisms that its points are.
#![tactic(auto)]

mod conditions;
mod costs;
mod layout;
mod mechanisms;
mod points;
mod program;
mod shares;
mod terms;

pub use mechanisms::{mechanism_of, payments_of};
pub use points::point_of;
pub use program::{push_rows, rows_of};
