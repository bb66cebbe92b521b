//! Sales of one item to bidders who differ, solved: the cut run over the programs of a sale, whose cuts are Border's
//! conditions for sets of pairs of a bidder and one of its types. Its end is an optimal mechanism of the setting.
#![tactic(auto)]

mod payments;
mod sale;
mod solving;

pub use md_cut_runs::CutsError as AsymError;
pub use solving::solve_asym;
