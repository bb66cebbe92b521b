//! Mass tables of a symmetric auction: how often the item goes to bidders with a value, by how many bidders have each value.
//!
//! A mass table makes interim odds into a mechanism: at each profile the mass of a value at the counts of the profile goes
//! to the bidders with this value, in equal parts. Interim odds have a mass table exactly where no set of values breaks
//! Border's condition (Border, "Implementation of Reduced Form Auctions", Econometrica 1991). It is found as a flow from the
//! lists of counts to the kinds of values.
#![tactic(auto)]

mod build;
mod masses;
mod net;
mod realise_end;
mod realising;
mod refusal;

pub use masses::Masses;
pub use net::{cap, demands};
pub use realise_end::RealiseEnd;
pub use realising::realise;
pub use refusal::MassRefusal;
