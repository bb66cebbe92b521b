//! Auctions of several identical units, of which each bidder wants one, solved: the cut run over the reduced programs of such
//! a sale, whose cuts are Border's conditions for several units. Its end is an optimal mechanism of the sale.
#![tactic(auto)]

mod programs;
mod solving;
mod unit_cuts;
mod units_answer;

pub use md_border::right_side_for as right_side;
pub use md_cut_runs::CutsError as UnitsError;
pub use md_unit_tables::{UnitEnd, realise_units, unit_worth};
pub use programs::program;
pub use solving::solve_units;
pub use units_answer::UnitsAnswer;
