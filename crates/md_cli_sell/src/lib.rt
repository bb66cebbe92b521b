//! The commands that find a best mechanism of a sale: of an asymmetric one, of several units, and of pools in closed form.
#![tactic(auto)]

mod asym;
mod iron;
mod iron_units;
mod threshold;
mod threshold_text;
mod units;
mod units_text;

pub use asym::Asym;
pub use iron::Iron;
pub use iron_units::IronUnits;
pub use threshold::ThresholdSale;
pub use units::Units;
