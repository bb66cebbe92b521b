//! Sales of several identical units to bidders who each want one: interim odds become a table of how often units go to bidders
//! with a value, by how many bidders have each value.
//!
//! A unit table makes interim odds into a mechanism: at each profile the mass of a value at the counts of the profile goes to the
//! bidders with this value, in equal parts, and a lottery over sets of bidders gives each of them its part and no bidder two units.
//! Interim odds have a unit table exactly where no set of values asks for more units than there are (Border, "Implementation of
//! Reduced Form Auctions", Econometrica 1991). It is found as a flow from the lists of counts to the kinds of values.
#![tactic(auto)]

mod realising;
mod sums;
mod unit_end;
mod unit_net;
mod unit_number;
mod worth;

pub use realising::realise_units;
pub use sums::mass_sum;
pub use unit_end::UnitEnd;
pub use unit_number::UnitNumber;
pub use worth::unit_worth;
