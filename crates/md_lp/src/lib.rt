//! Linear programs with whole-number coefficients, and the small types that speak of their bases.
#![tactic(auto)]

mod divide;
mod entry;
mod lp;
mod lp_refusal;
mod path;
mod pivot;
mod places;
mod row_kind;
mod sets;
mod single_sets;
mod sizes;
mod stored_row;
mod stored_term;
mod sums;
mod term;
mod wide;

pub use entry::Entry;
pub use lp::Lp;
pub use lp_refusal::LpRefusal;
pub use path::Path;
pub use pivot::Pivot;
pub use row_kind::RowKind;
pub use sets::Sets;
pub use single_sets::singles;
pub use term::Term;
pub use wide::Wide;
