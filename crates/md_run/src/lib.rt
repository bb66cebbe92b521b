//! Outcomes drawn of answers: which outcome two draws give at a profile of reports, or which bidders get a unit, or who gets the item
//! of a sale to bidders who differ, and what each agent then pays.
//!
//! A draw is a number from outside, as a die that was cast gives it. So the same draws give the same outcome, and over all
//! draws that may be each outcome comes as often as the answer's mechanism says.
#![tactic(auto)]

mod auction;
mod bidders;
mod drawing;
mod drawing_units;
mod drawn;
mod general;
mod lottery;
mod refusal;
mod reports;
mod sale;
mod units;
mod units_drawn;

pub use drawing::draw;
pub use drawing_units::draw_units;
pub use drawn::Drawn;
pub use refusal::DrawRefusal;
pub use sale::draw_sale;
pub use units_drawn::UnitsDrawn;
