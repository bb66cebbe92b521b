//! Definitions and laws of signed numbers, sums and lists, which the contracts of other crates cite.
//! They stand in `specs/` and `proofs/`; there is no code.
#![tactic(auto)]
