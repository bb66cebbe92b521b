//! Bases of linear programs, as files list them, and the certificates that they give. The point and the multipliers of the basis are worked out modulo the square of a prime, and their fractions from that. What is found is judged before it is given back, so that nothing of this has to be right.
#![tactic(auto)]

mod basis;
mod end;
mod equations;
mod from;
mod inverse;
mod matrix;
mod prime;
mod residues;
mod solution;
mod square;

pub use basis::{Basis, read_basis};
pub use end::find_at;
pub use from::find_from;
