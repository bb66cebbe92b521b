//! Virtual values of an auction's values (Myerson 1981, over finitely many values), the pools of values that they make, and the
//! interim odds and payments of these: definitions and laws, which the contracts of other crates cite. There is no code.
#![tactic(auto)]
