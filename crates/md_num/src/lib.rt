//! Exact arithmetic in range: widths, greatest common divisors, fractions, the texts of whole numbers and lists of them.
#![tactic(auto)]

mod division;
mod frac;
mod no_memory;
mod nums;
mod steps;
mod whole;
mod width;

pub use division::{exact_quotient, gcd};
pub use frac::Frac;
pub use no_memory::NoMemory;
pub use nums::Nums;
pub use steps::{add_product, cross_difference, product};
pub use whole::{NumRefusal, read_whole, write_whole};
pub use width::{Width, fits};
