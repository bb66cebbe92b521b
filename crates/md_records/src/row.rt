//! A record to be written.
// A record to be written.
ghost use Rattle.std.specs.Prelude.{◌≡◌, [], ◌∷◌, ◌++◌, IfOk};
ghost use Rattle.md_num.specs.WholeText.{text_of};

use csv::ByteRecord;
use md_num::{NoMemory, write_whole};
use std::alloc::Global;
use std::marker::Model;

/// A record to be written: a list of fields of any bytes.
#[derive(Drop)]
pub struct Row {
    alloc: Global,
    pub(crate) fields: ByteRecord,
}

impl Model for Row {
    ghost use Rattle.std.specs.Prelude.{ℕ, List, ◌≡◌, []};
    ghost use Rattle.csv.specs.Records.{fields_of, partial_of};

    ghost Value = { List (List ℕ) };

    ghost view = { λ r. fields_of r.fields };

    ghost invariant = { λ r. partial_of r.fields ≡ [] };
}

impl Row {
    /// A record with no field. It takes no memory.
    pub fn new(alloc: Global) -> Row
        ensures { result ≡ [] }
    {
        Row {
            alloc,
            fields: ByteRecord::new(alloc),
        }
    }

    /// The record with one field more.
    pub fn with(self, field: &[u8]) -> Result<Row, NoMemory>
        ensures { IfOk result (λ row. row ≡ self ++ field.now ∷ []) }
    {
        let Row { alloc, mut fields } = self;
        fields.push_field(field)?;
        Ok(Row { alloc, fields })
    }

    /// The record with the text of a number as one field more.
    pub fn with_number(self, number: i128) -> Result<Row, NoMemory>
        ensures { IfOk result (λ row. row ≡ self ++ text_of number ∷ []) }
    {
        let mut text = Vec::new(self.alloc);
        write_whole(number, &mut text)?;
        self.with(&text)
    }
}
