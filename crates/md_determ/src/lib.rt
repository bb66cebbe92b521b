//! The search for the best deterministic mechanism of a setting, by branch and bound (Land and Doig 1960): each node of its tree
//! fixes outcomes at some profiles, and has the setting's linear program with these.
#![tactic(auto)]

mod pairs;
mod read;
mod rules;
mod search;
mod solving;
mod visiting;

pub use solving::solve_determ;
