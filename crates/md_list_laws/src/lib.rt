//! The laws of lists of bids: a valid list is best. Laws, which the contracts of other crates cite. There is no code.
#![tactic(auto)]
