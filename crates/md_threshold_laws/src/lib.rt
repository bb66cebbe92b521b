//! The threshold rule of a sale of several units: the highest pools of values win, the bidders of a pool that is split win alike, and
//! only winners pay. Definitions and laws, which the contracts of other crates cite; there is no code.
#![tactic(auto)]
