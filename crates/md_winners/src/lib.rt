//! Auctions of several identical units, of which each bidder wants one, as general settings: the sets of bidders that win a unit each,
//! a lottery over these sets that has each bidder win as often as wanted, and interim odds of such sales. Definitions and laws, which
//! the contracts of other crates cite. There is no code.
#![tactic(auto)]
