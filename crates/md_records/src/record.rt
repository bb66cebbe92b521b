//! A record that was read.
// A record that was read.
ghost use Rattle.std.specs.Prelude.{◌≡◌, ◌≤◌, ◌==◌, ◌↔◌, Some, length, slice_get, option_map, IsTrue};
ghost use Rattle.md_records.specs.Numbers.{number_at};

use csv::ByteRecord;
use md_num::read_whole;
use std::marker::Model;

/// A record that was read: a list of fields of any bytes.
#[derive(Drop)]
pub struct Record {
    pub(crate) fields: ByteRecord,
}

impl Model for Record {
    ghost use Rattle.std.specs.Prelude.{ℕ, List};
    ghost use Rattle.csv.specs.Records.{fields_of};

    ghost Value = { List (List ℕ) };

    ghost view = { λ r. fields_of r.fields };
}

impl Record {
    /// How many fields it has.
    pub fn len(&self) -> usize
        ensures { result ≡ length self.now }
    {
        self.fields.len()
    }

    /// Whether it has no field.
    pub fn is_empty(&self) -> bool
        ensures { result ≡ (length self.now == 0) }
    {
        self.fields.is_empty()
    }

    /// The field at a place, counted from 0, if there is one.
    pub fn get(&self, place: usize) -> Option<&[u8]>
        ensures { option_map (λ field. field.now) result ≡ slice_get self.now place }
    {
        self.fields.get(place)
    }

    /// The number at a place, if the field there is the text of a whole number of at most so many bits.
    pub fn number(&self, place: usize, bits: u8) -> Option<i128>
        requires { bits ≤ 126 }
        ensures { result ≡ number_at bits self.now place }
    {
        match self.get(place) {
            Some(text) => read_whole(text, bits).ok(),
            None => None,
        }
    }

    /// Whether the field at a place is this text.
    pub fn is(&self, place: usize, text: &[u8]) -> bool
        ensures { IsTrue result ↔ (slice_get self.now place ≡ Some text.now) }
    {
        match self.get(place) {
            Some(field) => field == text,
            None => false,
        }
    }
}
