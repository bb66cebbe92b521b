//! The records of a text, one after another.
// The records of a text, one after the other.
ghost use Rattle.std.specs.Prelude.{◌≡◌, [], ◌∷◌, ◌≤◌, length, false, MatchOption, IfOk, OnErr};
ghost use Rattle.md_records.specs.Text.{records_of};
ghost use Rattle.md_records.specs.Left.{left_of, IsReading};

use crate::Record;
use crate::ahead::fields_ahead;
use csv::{ByteRecord, Reader, ReaderBuilder};
use md_num::NoMemory;
use std::alloc::Global;
use std::marker::Model;

/// The records of a text that are not read yet.
#[derive(Drop)]
pub struct Records<'a> {
    alloc: Global,
    text: &'a [u8],
    reader: Reader<&'a [u8]>,
    ended: bool,
}

impl<'a> Model for Records<'a> {
    ghost use Rattle.std.specs.Prelude.{ℕ, List, ◌≡◌, false};
    ghost use Rattle.md_records.specs.Left.{left_of, IsReading};

    ghost Value = { List (List (List ℕ)) };

    ghost view = { λ r. left_of r.ended r.reader };

    ghost invariant = { λ r. r.ended ≡ false → IsReading r.reader };
}

impl<'a> Records<'a> {
    /// All records of a text.
    pub fn new(alloc: Global, text: &'a [u8]) -> Records<'a>
        ensures all { result ≡ records_of text.now }
        ensures few { length result ≤ length text.now }
    {
        Records {
            alloc,
            text,
            reader: reader_of(alloc, text),
            ended: false,
        }
    }

    /// The next record, if one is left. Once memory ran out none are left.
    pub fn next(&mut self) -> Result<Option<Record>, NoMemory>
        ensures taken { IfOk result (λ next. MatchOption next ((self.old ≡ []) × (self.new ≡ [])) (λ first. self.old ≡ first ∷ self.new)) }
        ensures memory { OnErr result (self.new ≡ []) }
    {
        if self.ended {
            return Ok(None);
        }
        let mut fields = self.room();
        match self.reader.read_byte_record(&mut fields) {
            Ok(true) => Ok(Some(Record { fields })),
            Ok(false) => {
                self.ended = true;
                Ok(None)
            }
            Err(_) => {
                self.ended = true;
                Err(NoMemory)
            }
        }
    }

    // A record with no field yet, and with room for those of the next one where there is memory for it. A record that
    // grows takes twice the room that it had, beside that of before: too much where one record is the whole text.
    fn room(&self) -> ByteRecord {
        let start = usize::try_from(self.reader.position().byte()).unwrap_or(usize::MAX);
        let ahead = self.text.get(start..).unwrap_or_default();
        let none = ByteRecord::new(self.alloc);
        ByteRecord::with_capacity(self.alloc, 0, fields_ahead(ahead)).unwrap_or(none)
    }
}

// A reader of all records of a text. It is given an empty header where there is memory for it, since one that was given
// none keeps its first record twice, beside the one that it gives out.
fn reader_of<'a>(alloc: Global, text: &'a [u8]) -> Reader<&'a [u8]>
    ensures reading { IsReading result }
    ensures left { left_of false result ≡ records_of text.now }
{
    let mut reader = ReaderBuilder::new().flexible(true).from_reader(alloc, text);
    match reader.set_byte_headers(ByteRecord::new(alloc)) {
        Ok(()) => reader,
        Err(_) => ReaderBuilder::new()
            .has_headers(false)
            .flexible(true)
            .from_reader(alloc, text),
    }
}
