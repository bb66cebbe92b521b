//! What the program of a sale says of its mechanisms: which are admissible, where they stand in it, and which are optimal.
//! Definitions and laws, which the contracts of other crates cite. There is no code.
#![tactic(auto)]
