//! Auctions with groups of bidders who differ, for slots of different amounts, and the general settings that they mean: definitions
//! and laws, which the contracts of other crates cite; and symmetric auctions as such ones.
#![tactic(auto)]

mod symmetric;

pub use symmetric::as_groups;
