//! Profile tables of a sale: how often the item goes to each agent at each profile of types.
//!
//! Interim odds of the pairs of an agent and a type have a profile table exactly where no set of pairs asks for the item more
//! often than there are some (Border, "Implementation of Reduced Form Auctions", Econometrica 1991). The table is found as a
//! flow from the profiles to the pairs.
#![tactic(auto)]

mod mass_sums;
mod odds;
mod pair_end;
mod pair_net;
mod pair_table;
mod realising;

pub use mass_sums::mass_sum;
pub use odds::are_odds;
pub use pair_end::PairEnd;
pub use pair_net::demand;
pub use realising::realise_pairs;
