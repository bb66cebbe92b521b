//! That an auction which sells by pools is optimal: its point of the reduced program with the multipliers of the rows is a
//! certificate. Definitions and laws, which the contracts of other crates cite; there is no code.
#![tactic(auto)]
