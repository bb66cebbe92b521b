//! Optimal auctions in closed form, of one item or of several units: values are pooled by their virtual values (Myerson, "Optimal auction design", 1981), and
//! the multipliers that certify it are fractions, which are brought over one denominator.
#![tactic(auto)]

mod answers;
mod bounds;
mod cut_rows;
mod forms;
mod ironed;
mod ironing;
mod multiples;
mod rows;
mod shares;
mod truth_rows;
mod units;

pub use ironed::Ironed;
pub use ironing::iron;
pub use units::iron_units;
