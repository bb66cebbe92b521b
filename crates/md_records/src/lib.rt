//! Records of fields: texts of comma-separated values, read record by record and written whole.
//!
//! A contract sees a record as the list of its fields, and a text as the list of its records. A line's end in
//! quotes belongs to its field, records may have different lengths, and there is no header row.
#![tactic(auto)]

mod ahead;
mod record;
mod records;
mod row;
mod writing;

pub use record::Record;
pub use records::Records;
pub use row::Row;
pub use writing::write_records;
