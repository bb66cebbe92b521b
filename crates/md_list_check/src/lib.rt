//! Whether a list of bids is best, as it claims: it is its own certificate, and nothing is solved.
#![tactic(auto)]

mod check;
mod divisors;
mod left_out;
mod levels;
mod order;
mod pools;
mod ranks;
mod told;
mod verdict;

pub use check::check_list;
pub use verdict::ListVerdict;
