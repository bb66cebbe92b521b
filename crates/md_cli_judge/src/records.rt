//! The record of a verdict.
ghost use Rattle.std.specs.Prelude.{◌≡◌, [], IfOk};
ghost use Rattle.md_cli_judge.specs.Verdicts.{rejected};
ghost use Rattle.md_records.specs.Written.{record_text};

use md_num::NoMemory;
use md_records::{Row, write_records};
use std::alloc::Global;

/// The text of one record.
pub(crate) fn record_text(alloc: Global, fields: Row) -> Result<Vec<u8>, NoMemory>
    ensures { IfOk result (λ text. text.items ≡ record_text fields) }
{
    write_records(alloc, &[fields])
}

/// A record that begins with the condition's number.
pub(crate) fn rejected_by(alloc: Global, condition: &[u8]) -> Result<Row, NoMemory>
    ensures { IfOk result (λ fields. fields ≡ rejected condition.now []) }
{
    Row::new(alloc).with(b"rejected")?.with(condition)
}
