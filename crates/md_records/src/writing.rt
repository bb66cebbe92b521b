//! Records, written as a text.
// Records as one text.
ghost use Rattle.std.specs.Prelude.{◌≡◌, IfOk};
ghost use Rattle.md_records.specs.Text.{records_of};
ghost use Rattle.md_records.specs.Written.{text_of_records, IsReadBack};

use crate::Row;
use csv::WriterBuilder;
use md_num::NoMemory;
use std::alloc::Global;

/// The text of records. A field stands in quotes where it needs them, and each record ends with a newline.
pub fn write_records(alloc: Global, rows: &[Row]) -> Result<Vec<u8>, NoMemory>
    ensures text { IfOk result (λ text. text.items ≡ text_of_records rows.now) }

    // What was written is read as the same records.
    ensures reads_back { IfOk result (λ text. IsReadBack rows.now → records_of text.items ≡ rows.now) }
{
    let mut writer = WriterBuilder::new()
        .flexible(true)
        .from_writer(Vec::new(alloc));
    for row in rows {
        let Ok(()) = writer.write_byte_record(&row.fields) else {
            return Err(NoMemory);
        };
    }
    match writer.into_inner() {
        Ok(text) => Ok(text),
        Err(_) => Err(NoMemory),
    }
}
