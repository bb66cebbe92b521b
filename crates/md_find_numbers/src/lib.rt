//! Whole numbers of up to 256 bits, for a search whose numbers have up to 126: differences of two products, and their quotients.
#![tactic(auto)]

mod divisors;
mod wide_number;
mod wide_size;

pub use divisors::gcd;
pub use wide_number::WideNumber;
pub use wide_size::{Division, WideSize};
