//! Exact division of machine words: a number by which many are divided is prepared once, and each quotient is then guessed by one multiplication with the inverse of its odd part. A guess counts only where it is right.
#![tactic(auto)]

mod binary;
mod divider;
mod quick;
mod words;

pub use binary::binary_gcd;
pub use divider::{Divider, common_divisor};
pub use quick::{Guess, QuickDivider};
pub use words::{is_within, lowest_half};
