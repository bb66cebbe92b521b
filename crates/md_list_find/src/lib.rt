//! The best list of bids is found by the rule: reserves and pools group by group, put into their order.
#![tactic(auto)]

mod chords;
mod find;
mod order;
mod virtual_values;

pub use find::find_list;
