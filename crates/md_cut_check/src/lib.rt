//! Answers by interim odds and payments that a program with cuts certifies: which verdict on them is right, and what it shows.
//! Definitions and laws, which the contracts of other crates cite. There is no code.
#![tactic(auto)]
