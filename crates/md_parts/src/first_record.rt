//! The first record, read and written.
ghost use Rattle.std.specs.Prelude.{◌≡◌, ◌≢◌, ◌<◌, ◌++◌, ◌∷◌, ℕ, pos, List, [], true, Some, map, length, Ok, Err, IfOk, OnOk, MatchResult};
ghost use Rattle.md_parts.specs.FirstRecord.{word_among, stands_in, in_version, first_of};
ghost use Rattle.md_parts.specs.Rows.{first_row};
ghost use Rattle.md_parts.specs.Written.{IsWrittenBefore};

use crate::AnswerRefusal;
use crate::reader::Reader;
use crate::version::Version;
use md_num::NoMemory;
use md_records::Row;
use std::alloc::Global;

/// What the first record says: the version of the format, and the place of a word among those of such answers.
#[derive(Clone, Copy)]
pub struct Head {
    pub version: Version,
    pub word: usize,
}

// Whether answers of a word stand in a version of the format.
fn stands_in(version: Version, word: &str) -> bool
    ensures { result ≡ stands_in version word.now }
{
    match version {
        Version::One => true,
        Version::Two => word == "toowide",
    }
}

// A word must stand in the version.
fn stand(
    reader: &Reader,
    words: &[&str],
    version: Version,
    word: usize,
) -> Result<Head, AnswerRefusal>
    requires { word < length words.now }
    ensures read { MatchResult result
        (λ head. in_version (map (λ w. w.now) words.now) version word reader.now ≡ Ok (head, reader.now))
        (λ refusal. in_version (map (λ w. w.now) words.now) version word reader.now ≡ Err refusal) }
    ensures inside { IfOk result (λ head. head.word < length words.now) }
{
    if stands_in(version, words[word]) {
        Ok(Head { version, word })
    } else {
        Err(reader.refusal_at(4))
    }
}

/// The first record: the version of the format, the kind of what the file is about, and one of some words, which says
/// which answer it is. In the second version only the word `toowide` stands.
///
/// # Errors
/// The first record that may not stand there or has a wrong field, or that memory ran out.
pub fn read_first(reader: &mut Reader, kind: &str, words: &[&str]) -> Result<Head, AnswerRefusal>
    ensures read { MatchResult result
        (λ head. first_of kind.now (map (λ w. w.now) words.now) reader.old ≡ Ok (head, reader.new))
        (λ refusal. refusal ≢ AnswerRefusal.Memory → first_of kind.now (map (λ w. w.now) words.now) reader.old ≡ Err refusal) }
    ensures inside { IfOk result (λ head. head.word < length words.now) }
{
    let mut fields = reader.next("answer", 3)?;
    let version = fields.version()?;
    fields.word(kind)?;
    let place = fields.one_of(words)?;
    stand(reader, words, version, place)
}

/// Adds the first record.
///
/// # Errors
/// Want of memory.
#[tactic(auto, using(crate::proofs::WrittenParts::laws))]
pub fn push_first(
    alloc: Global,
    to: &mut Vec<Row>,
    version: Version,
    kind: &str,
    word: &str,
) -> Result<(), NoMemory>
    ensures rows { OnOk result (to.new.items ≡ to.old.items ++ first_row version kind.now word.now ∷ []) }

    // It is read back, where the word is among those of such answers and stands in the version.
    ensures reads_back { (words : List (List ℕ)) (place : ℕ) (others : List (List (List ℕ))) → word_among words word.now ≡ Some (pos place) → stands_in version word.now ≡ true
        → IsWrittenBefore others (first_of kind.now words) (first_row version kind.now word.now ∷ []) (record { version = version; word = place }) }
{
    let answer = Row::new(alloc).with(b"answer")?;
    let versioned = answer.with(version.text().as_bytes())?;
    let named = versioned.with(kind.as_bytes())?.with(word.as_bytes())?;
    to.push(named)?;
    Ok(())
}
