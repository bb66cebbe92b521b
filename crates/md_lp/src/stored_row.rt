//! A row as a program keeps it.
use crate::row_kind::RowKind;
use crate::stored_term::StoredTerm;

// A row as it is kept: its memory is that of its terms.
#[derive(Drop)]
pub struct StoredRow {
    pub kind: RowKind,
    pub terms: Vec<StoredTerm>,
    pub right: i128,
}
