//! The best mechanism of a general setting among those that meet conditions of the designer: the question, and what is told of its
//! answers.
#![tactic(auto)]

mod amount;
mod bounds;
mod checking;
mod condition;
mod divisors;
mod fractions;
mod parts;
mod price;
mod program;
mod question;
mod required_verdict;
mod shadow_check;
mod shadow_prices;
mod standing;
mod terms;
mod told;
mod unmet;

pub use amount::{Amount, amount_at};
pub use bounds::whole;
pub use condition::{Condition, Measured, Side};
pub use parts::{chance_part, pay_part};
pub use program::require_program;
pub use question::Requiring;
pub use required_verdict::RequiredVerdict;
pub use shadow_check::check_told;
pub use shadow_prices::shadows;
pub use standing::{Standing, standings};
pub use unmet::first_unmet;
