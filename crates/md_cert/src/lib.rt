//! Certificates of linear programs and their check, in whole numbers and without memory.
#![tactic(auto)]

mod bound;
mod cert_fault;
mod certificate;
mod check;
mod columns;
mod pairs;
mod points;
mod rays;
mod signs;

pub use bound::Bound;
pub use cert_fault::CertFault;
pub use certificate::Certificate;
pub use check::check_lp;
