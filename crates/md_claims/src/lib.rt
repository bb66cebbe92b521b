//! What the claims of a setting's program, and of an auction's reduced program, say of mechanisms; the certificates that answers
//! state, and whether a printed value is the value.
#![tactic(auto)]

mod auction_certificates;
mod certificates;
mod lists;
mod values;

pub use auction_certificates::auction_certificate;
pub use certificates::{infeasible_certificate, optimal_certificate, unbounded_certificate};
pub use values::{is_same_number, other_value};
