//! The fields of one record.
ghost use Rattle.std.specs.Prelude.{◌≡◌, ◌≢◌, ◌<◌, ◌≤◌, ◌+◌, ◌∷◌, [], ℕ, pos, List, drop, length, ℤ, ◌+ℤ◌, ◌^◌, ◌++◌, replicate, unsigned_abs, MatchResult, MatchOption, option_map, map, min, IfSome, IfOk, Ok, Err, true, IsTrue};
ghost use Rattle.md_math.specs.Sums.{total};
ghost use Rattle.md_num.specs.Limits.{limit_of};
ghost use Rattle.md_parts.specs.Fields.{word_field, place_field, is_amount, amount_field, is_free_place, free_place_field, table_place};
ghost use Rattle.md_parts.specs.Records.{fields_after_word};
ghost use Rattle.md_parts.specs.Versions.{version_field, version_number};
ghost use Rattle.md_parts.specs.Ranges.{ranged_field, in_range};
ghost use Rattle.md_parts.specs.FieldsRead.{Reads, FailsIn};
ghost use Rattle.md_parts.specs.FirstRecord.{word_among};

use crate::AnswerRefusal;
use crate::range::Range;
use crate::version::Version;
use md_num::{Nums, read_whole};
use md_records::Record;
use std::marker::Model;

/// The number of places that a row or a column of a table may have.
const TABLE_PLACES: u64 = 4_294_967_296;

/// The fields of a record that are left.
#[derive(Drop)]
pub struct Fields {
    fields: Record,
    number: u64,
    next: usize,
}

impl Model for Fields {
    ghost use Rattle.std.specs.Prelude.{◌+◌, ◌<◌, ◌≤◌, ◌^◌, drop, length};
    ghost use Rattle.md_parts.specs.Left.{Left};

    ghost Value = { Left };

    ghost view = { λ f. record { number = f.number; place = f.next + 1; texts = drop f.next f.fields } };

    ghost invariant = { λ f. (f.next ≤ length f.fields) × (length f.fields < 2 ^ 64) };
}

impl Fields {
    /// The fields after the word of a record of this number.
    pub(crate) fn new(fields: Record, number: u64) -> Fields
        requires { 0 < length fields }
        ensures { result ≡ record { number = number; place = 2; texts = drop 1 fields } }
    {
        let _fits = fields.len();
        Fields {
            fields,
            number,
            next: 1,
        }
    }

    // The text of the next field.
    fn text(&self) -> &[u8]
        requires { 0 < length self.now.texts }
        ensures { self.now.texts ≡ result.now ∷ drop 1 self.now.texts }
    {
        match self.fields.get(self.next) {
            Some(text) => text,
            None => &[],
        }
    }

    // Goes to the field after the next.
    fn step(&mut self)
        requires { 0 < length self.old.texts }
        ensures { self.new ≡ record { number = self.old.number; place = self.old.place + 1; texts = drop 1 self.old.texts } }
    {
        self.next += 1;
    }

    // The next field holds something else than it must.
    fn refusal(&self) -> AnswerRefusal
        requires { 0 < length self.now.texts }
        ensures { result ≡ AnswerRefusal.Cell self.now.number self.now.place }
    {
        AnswerRefusal::Cell(self.number, self.next as u64 + 1)
    }

    /// The next field must be a word or name.
    ///
    /// # Errors
    /// The field is something else.
    #[tactic(auto, using(crate::proofs::FieldSteps::field_steps))]
    pub fn word(&mut self, text: &str) -> Result<(), AnswerRefusal>
        requires { 0 < length self.old.texts }
        ensures { MatchResult result
            (λ _. Reads (word_field text.now ∷ []) self.old self.new (pos 0 ∷ []))
            (λ refusal. FailsIn (word_field text.now ∷ []) self.old refusal) }
    {
        if self.text() != text.as_bytes() {
            return Err(self.refusal());
        }
        self.step();
        Ok(())
    }

    /// The next field must be a version of the format.
    ///
    /// # Errors
    /// The field is no version.
    #[tactic(auto, using(crate::proofs::FieldSteps::field_steps))]
    pub fn version(&mut self) -> Result<Version, AnswerRefusal>
        requires { 0 < length self.old.texts }
        ensures { MatchResult result
            (λ version. Reads (version_field ∷ []) self.old self.new (version_number version ∷ []))
            (λ refusal. FailsIn (version_field ∷ []) self.old refusal) }
    {
        match Version::named(self.text()) {
            Some(version) => {
                self.step();
                Ok(version)
            }
            None => Err(self.refusal()),
        }
    }

    /// The next field must be one of some words. Answers the place of the first that it is.
    ///
    /// # Errors
    /// The field is none of the words.
    #[tactic(auto, using(crate::proofs::FieldSteps::field_steps))]
    pub fn one_of(&mut self, words: &[&str]) -> Result<usize, AnswerRefusal>
        requires { 0 < length self.old.texts }
        ensures read { MatchResult result
            (λ place. Reads (word_among (map (λ w. w.now) words.now) ∷ []) self.old self.new (pos place ∷ []))
            (λ refusal. FailsIn (word_among (map (λ w. w.now) words.now) ∷ []) self.old refusal) }
        ensures inside { IfOk result (λ place. place < length words.now) }
    {
        match place_among(words, self.text()) {
            Some(place) => {
                self.step();
                Ok(place)
            }
            None => Err(self.refusal()),
        }
    }

    /// The next field must be a number of at most so many bits in a range.
    ///
    /// # Errors
    /// The field is no such number.
    #[tactic(auto, using(crate::proofs::FieldSteps::field_steps))]
    pub fn number(&mut self, bits: u8, range: Range) -> Result<i128, AnswerRefusal>
        requires some { 0 < length self.old.texts }
        requires bits { bits ≤ 126 }
        ensures read { MatchResult result
            (λ number. Reads (ranged_field bits range ∷ []) self.old self.new (number ∷ []))
            (λ refusal. FailsIn (ranged_field bits range ∷ []) self.old refusal) }
        ensures range { IfOk result (λ number. in_range range number ≡ true) }
        ensures size { IfOk result (λ number. unsigned_abs number ≤ limit_of bits) }
    {
        match read_whole(self.text(), bits) {
            Ok(number) if range.has(number) => {
                self.step();
                Ok(number)
            }
            _ => Err(self.refusal()),
        }
    }

    /// The next field must be a place from one on and below another.
    ///
    /// # Errors
    /// The field is no such number.
    pub fn place(&mut self, from: u64, below: u64) -> Result<u64, AnswerRefusal>
        requires { 0 < length self.old.texts }
        ensures read { MatchResult result
            (λ place. Reads (place_field from below ∷ []) self.old self.new (pos place ∷ []))
            (λ refusal. FailsIn (place_field from below ∷ []) self.old refusal) }
        ensures inside { IfOk result (λ place. (from ≤ place) × (place < below)) }
    {
        let place = self.number(62, Range::Place { from, below })?;
        Ok(place as u64)
    }

    /// The next field must be a place from one on and below another, and none of those that are taken.
    ///
    /// # Errors
    /// The field is no such number, or one that is taken.
    #[tactic(auto, using(crate::proofs::FieldSteps::field_steps))]
    pub fn free_place(&mut self, from: u32, below: u32, taken: &[u32]) -> Result<u32, AnswerRefusal>
        requires { 0 < length self.old.texts }
        ensures read { MatchResult result
            (λ place. Reads (free_place_field from below taken.now ∷ []) self.old self.new (pos place ∷ []))
            (λ refusal. FailsIn (free_place_field from below taken.now ∷ []) self.old refusal) }
        ensures free { IfOk result (λ place. is_free_place from below taken.now (pos place) ≡ true) }
    {
        match read_whole(self.text(), 62) {
            Ok(number) if is_free(number, from, below, taken) => {
                self.step();
                Ok(number as u32)
            }
            _ => Err(self.refusal()),
        }
    }

    /// The next two fields must be the row and the column of a place of a table.
    ///
    /// # Errors
    /// The first of the two that is no such number.
    pub fn table_place(&mut self) -> Result<(u32, u32), AnswerRefusal>
        requires { 2 ≤ length self.old.texts }
        ensures { MatchResult result
            (λ place. Reads (table_place ∷ table_place ∷ []) self.old self.new (pos place.0 ∷ pos place.1 ∷ []))
            (λ refusal. FailsIn (table_place ∷ table_place ∷ []) self.old refusal) }
    {
        let row = self.place(0, TABLE_PLACES)?;
        let column = self.place(0, TABLE_PLACES)?;
        Ok((row as u32, column as u32))
    }

    /// The next two fields must be numbers of at most so many bits, each in its range.
    ///
    /// # Errors
    /// The first of the two that is no such number.
    pub fn pair(
        &mut self,
        bits: u8,
        first: Range,
        second: Range,
    ) -> Result<(i128, i128), AnswerRefusal>
        requires some { 2 ≤ length self.old.texts }
        requires bits { bits ≤ 126 }
        ensures { MatchResult result
            (λ pair. Reads (ranged_field bits first ∷ ranged_field bits second ∷ []) self.old self.new (pair.0 ∷ pair.1 ∷ []))
            (λ refusal. FailsIn (ranged_field bits first ∷ ranged_field bits second ∷ []) self.old refusal) }
    {
        let one = self.number(bits, first)?;
        let other = self.number(bits, second)?;
        Ok((one, other))
    }

    /// The next fields must be so many numbers in a range, which are added to a list. Answers what they add to.
    ///
    /// # Errors
    /// The first field that is no such number, or that memory ran out.
    pub fn numbers(
        &mut self,
        count: usize,
        range: Range,
        to: &mut Nums,
    ) -> Result<i128, AnswerRefusal>
        requires some { count ≤ length self.old.texts }
        requires few { count ≤ 16 }
        ensures { MatchResult result
            (λ sum. (numbers : List ℤ) × Reads (replicate count (ranged_field 62 range)) self.old self.new numbers × (to.new ≡ to.old ++ numbers) × (sum ≡ total numbers))
            (λ refusal. refusal ≢ AnswerRefusal.Memory → FailsIn (replicate count (ranged_field 62 range)) self.old refusal) }
    {
        let mut sum = 0;
        for place in 0..count {
            let number = self.number(62, range)?;
            to.push(number)?;
            sum = added(sum, number);
        }
        Ok(sum)
    }

    /// The next field must be an amount: a number from 0 on and at most another.
    ///
    /// # Errors
    /// The field is no such number.
    #[tactic(auto, using(crate::proofs::FieldSteps::field_steps))]
    pub fn amount(&mut self, most: u128) -> Result<i128, AnswerRefusal>
        requires { 0 < length self.old.texts }
        ensures read { MatchResult result
            (λ number. Reads (amount_field most ∷ []) self.old self.new (number ∷ []))
            (λ refusal. FailsIn (amount_field most ∷ []) self.old refusal) }
        ensures range { IfOk result (λ number. is_amount most number ≡ true) }
        ensures size { IfOk result (λ number. unsigned_abs number ≤ limit_of 126) }
    {
        match read_whole(self.text(), 126) {
            Ok(number) if is_amount(number, most) => {
                self.step();
                Ok(number)
            }
            _ => Err(self.refusal()),
        }
    }

    /// The next fields must be amounts, each with a number that it is at most; they are added to a list. Answers what
    /// they add to, but one more than a limit where that is more than the limit.
    ///
    /// # Errors
    /// The first field that is no such amount, or that memory ran out.
    pub fn amounts(
        &mut self,
        mosts: &[u128],
        limit: u128,
        to: &mut Nums,
    ) -> Result<u128, AnswerRefusal>
        requires some { length mosts.now ≤ length self.old.texts }
        requires limit { limit < 2 ^ 126 }
        ensures { MatchResult result
            (λ sum. (numbers : List ℤ) × Reads (map amount_field mosts.now) self.old self.new numbers × (to.new ≡ to.old ++ numbers) × (sum ≡ min (unsigned_abs (total numbers)) (limit + 1)))
            (λ refusal. refusal ≢ AnswerRefusal.Memory → FailsIn (map amount_field mosts.now) self.old refusal) }
    {
        let mut sum = 0;
        for most in mosts {
            let number = self.amount(*most)?;
            to.push(number)?;
            sum = capped(sum, number.unsigned_abs(), limit);
        }
        Ok(sum)
    }
}

// Whether a number is from 0 on and at most another.
fn is_amount(number: i128, most: u128) -> bool
    ensures { result ≡ is_amount most number }
{
    0 <= number && number.unsigned_abs() <= most
}

// A sum with one amount more, but one more than a limit where that is more than the limit.
fn capped(sum: u128, more: u128, limit: u128) -> u128
    requires sum { sum ≤ limit + 1 }
    requires more { more ≤ limit_of 126 }
    requires limit { limit < 2 ^ 126 }
    ensures { result ≡ min (sum + more) (limit + 1) }
{
    (sum + more).min(limit + 1)
}

// Whether a number is a place from one on and below another, and none of those that are taken.
fn is_free(number: i128, from: u32, below: u32, taken: &[u32]) -> bool
    ensures { result ≡ is_free_place from below taken.now number }
{
    let place = Range::Place {
        from: u64::from(from),
        below: u64::from(below),
    };
    place.has(number) && !taken.contains(&(number as u32))
}

// The place of the first of some words that a text is.
fn place_among(words: &[&str], text: &[u8]) -> Option<usize>
    ensures place { word_among (map (λ w. w.now) words.now) text.now ≡ option_map (λ place. pos place) result }
    ensures inside { IfSome result (λ place. place < length words.now) }
{
    for place in 0..words.len() {
        if text == words[place].as_bytes() {
            return Some(place);
        }
    }
    None
}

// A sum with one number more.
fn added(sum: i128, number: i128) -> i128
    requires { unsigned_abs sum + unsigned_abs number < 2 ^ 126 }
    ensures value { result ≡ sum +ℤ number }
    ensures size { unsigned_abs result ≤ unsigned_abs sum + unsigned_abs number }
{
    sum + number
}
