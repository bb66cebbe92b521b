//! Reading a text record by record.
ghost use Rattle.std.specs.Prelude.{◌≡◌, ◌≢◌, ◌<◌, ◌≤◌, ◌+◌, ◌∷◌, ℕ, List, [], length, true, false, MatchResult, Ok, Err};
ghost use Rattle.std.specs.Ordering.{int_eq};
ghost use Rattle.md_records.specs.Text.{records_of};
ghost use Rattle.md_parts.specs.Reading.{Rest, nothing_left};
ghost use Rattle.md_parts.specs.Records.{record_with};
ghost use Rattle.md_parts.specs.Repeated.{comes_next};

use crate::AnswerRefusal;
use crate::fields::Fields;
use md_records::{Record, Records};
use std::alloc::Global;
use std::marker::Model;

/// The records of a text that are left, and how many were read.
#[derive(Drop)]
pub struct Reader<'a> {
    // the record that comes next, where one does, and those after it
    next: Option<Record>,
    others: Records<'a>,
    read: u64,
}

impl<'a> Model for Reader<'a> {
    ghost use Rattle.std.specs.Prelude.{◌+◌, ◌<◌, ◌^◌, length};
    ghost use Rattle.md_parts.specs.Reading.{Rest};
    ghost use Rattle.md_parts.specs.Ahead.{with_next};

    ghost Value = { Rest };

    ghost view = { λ r. record { read = r.read; left = with_next r.next r.others } };

    ghost invariant = { λ r. r.read + length (with_next r.next r.others) < 2 ^ 64 };
}

///
/// # Errors
/// Want of memory.
impl<'a> Reader<'a> {
    /// All records of a file.
    pub fn new(alloc: Global, bytes: &'a [u8]) -> Result<Reader<'a>, AnswerRefusal>
        ensures { MatchResult result
            (λ reader. reader ≡ record { read = 0; left = records_of bytes.now })
            (λ refusal. refusal ≡ AnswerRefusal.Memory) }
    {
        let _fits = bytes.len();
        let mut others = Records::new(alloc, bytes);
        let next = others.next()?;
        Ok(Reader {
            next,
            others,
            read: 0,
        })
    }

    /// Whether a record is left and begins with a word.
    pub fn comes_next(&self, word: &str) -> bool
        ensures { result ≡ comes_next word.now self.now.left }
    {
        match &self.next {
            Some(next) => next.is(0, word.as_bytes()),
            None => false,
        }
    }

    // Takes the next record.
    fn take(&mut self) -> Result<Record, AnswerRefusal>
        ensures { MatchResult result
            (λ next. (self.old.left ≡ next ∷ self.new.left) × (self.new.read ≡ self.old.read + 1))
            (λ refusal. refusal ≢ AnswerRefusal.Memory → (self.old.left ≡ []) × (refusal ≡ AnswerRefusal.End self.old.read)) }
    {
        let Some(next) = self.next.take() else {
            return Err(AnswerRefusal::End(self.read));
        };
        self.next = self.others.next()?;
        self.read += 1;
        Ok(next)
    }

    /// The next record, which must begin with a word and have so many fields after it.
    ///
    /// # Errors
    /// No record is left, the next one is another or has another number of fields, or that memory ran out.
    pub fn next(&mut self, word: &str, count: usize) -> Result<Fields, AnswerRefusal>
        ensures { MatchResult result
            (λ fields. record_with word.now count self.old ≡ Ok (fields, self.new))
            (λ refusal. refusal ≢ AnswerRefusal.Memory → record_with word.now count self.old ≡ Err refusal) }
    {
        let next = self.take()?;
        if next.is(0, word.as_bytes()) && next.len() - 1 == count {
            Ok(Fields::new(next, self.read))
        } else {
            Err(AnswerRefusal::Line(self.read))
        }
    }

    /// No record may be left.
    ///
    /// # Errors
    /// A record is left.
    pub fn end(&self) -> Result<(), AnswerRefusal>
        ensures { MatchResult result
            (λ _. nothing_left self.now ≡ Ok (tt, self.now))
            (λ refusal. nothing_left self.now ≡ Err refusal) }
    {
        match &self.next {
            None => Ok(()),
            Some(_) => Err(AnswerRefusal::Line(self.read + 1)),
        }
    }

    /// A field of the record that was read last holds something else than it must.
    pub fn refusal_at(&self, field: u64) -> AnswerRefusal
        ensures { result ≡ AnswerRefusal.Cell self.now.read field }
    {
        AnswerRefusal::Cell(self.read, field)
    }

    /// The amounts of the record that was read last may add to so much at most.
    ///
    /// # Errors
    /// They add to more.
    pub fn adds_at_most(&self, sum: u128, most: u128) -> Result<(), AnswerRefusal>
        ensures { MatchResult result
            (λ _. sum ≤ most)
            (λ refusal. (most < sum) × (refusal ≡ AnswerRefusal.Sum self.now.read)) }
    {
        if sum <= most {
            Ok(())
        } else {
            Err(AnswerRefusal::Sum(self.read))
        }
    }

    /// The numbers of the record that was read last must add to what they should.
    ///
    /// # Errors
    /// They add to something else.
    pub fn adds(&self, sum: i128, wanted: i128) -> Result<(), AnswerRefusal>
        ensures { MatchResult result
            (λ _. int_eq sum wanted ≡ true)
            (λ refusal. (int_eq sum wanted ≡ false) × (refusal ≡ AnswerRefusal.Sum self.now.read)) }
    {
        if sum == wanted {
            Ok(())
        } else {
            Err(AnswerRefusal::Sum(self.read))
        }
    }
}
