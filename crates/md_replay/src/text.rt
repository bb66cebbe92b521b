//! What came of listed pivots, as records.
ghost use Rattle.std.specs.Prelude.{◌≡◌, ◌++◌, ◌∷◌, [], pos, IfOk, OnOk};
ghost use Rattle.md_num.specs.WholeText.{text_of};
ghost use Rattle.md_records.specs.Written.{text_of_records};
ghost use Rattle.md_replay.specs.Records.{basis_record, basis_records, last_records, replay_text, wide_record, wide_records};

use crate::outcome::Replay;
use md_lp::Entry;
use md_num::{NoMemory, Nums};
use md_records::{Row, write_records};
use std::alloc::Global;

// The record of a basis that is not wide.
fn basis_row(alloc: Global, place: usize, den: i128, greatest: i128) -> Result<Row, NoMemory>
    ensures { IfOk result (λ fields. fields ≡ basis_record place den greatest) }
{
    Row::new(alloc)
        .with(b"basis")?
        .with_number(place as i128)?
        .with_number(den)?
        .with_number(greatest)
}

// The record of a wide entry.
fn wide_row(alloc: Global, entry: Entry) -> Result<Row, NoMemory>
    ensures { IfOk result (λ fields. fields ≡ wide_record entry) }
{
    Row::new(alloc)
        .with(b"wide")?
        .with_number(i128::from(entry.row))?
        .with_number(i128::from(entry.column))?
        .with_number(entry.num)?
        .with_number(entry.den)
}

// The record of how many pivots follow the rules of an order, which the word names.
fn count_row(alloc: Global, word: &[u8], count: u64) -> Result<Row, NoMemory>
    ensures { IfOk result (λ fields. fields ≡ word.now ∷ text_of (pos count) ∷ []) }
{
    Row::new(alloc).with(word)?.with_number(i128::from(count))
}

// Adds records to a text.
fn add_records(alloc: Global, text: &mut Vec<u8>, rows: &[Row]) -> Result<(), NoMemory>
    ensures { OnOk result (text.new.items ≡ text.old.items ++ text_of_records rows.now) }
{
    text.extend_from_slice(&write_records(alloc, rows)?)?;
    Ok(())
}

// The records of the bases that are not wide, as a text. Each is written as it comes: there may be millions.
fn bases_text(alloc: Global, dens: &Nums, greatest: &Nums) -> Result<Vec<u8>, NoMemory>
    ensures { IfOk result (λ text. text.items ≡ text_of_records (basis_records 0 dens.now greatest.now)) }
{
    let mut text = Vec::new(alloc);
    for place in 0..dens.len().min(greatest.len()) {
        let row = basis_row(alloc, place, dens.get(place), greatest.get(place))?;
        add_records(alloc, &mut text, &[row])?;
    }
    Ok(text)
}

// The record of the first wide entry, if there is one.
fn wide_rows(alloc: Global, wide: Option<Entry>) -> Result<Vec<Row>, NoMemory>
    ensures { IfOk result (λ rows. rows.items ≡ wide_records wide) }
{
    let mut rows = Vec::new(alloc);
    if let Some(entry) = wide {
        rows.push(wide_row(alloc, entry)?)?;
    }
    Ok(rows)
}

// The records behind those of the bases.
fn last_rows(alloc: Global, replay: &Replay) -> Result<Vec<Row>, NoMemory>
    ensures { IfOk result (λ rows. rows.items ≡ wide_records replay.now.wide ++ last_records replay.now.followed) }
{
    let mut rows = wide_rows(alloc, replay.wide)?;
    rows.push(count_row(alloc, b"rule", replay.followed.forward)?)?;
    rows.push(count_row(alloc, b"again", replay.followed.backward)?)?;
    rows.push(Row::new(alloc).with(b"end")?)?;
    Ok(rows)
}

/// What came of listed pivots as a text of records: one for each basis that is not wide, one for the first wide entry, if there
/// is one, how many of the pivots follow the rules of each order, and an end. docs/FORMATS.md states them.
pub fn replay_text(alloc: Global, replay: &Replay) -> Result<Vec<u8>, NoMemory>
    ensures { IfOk result (λ text. text.items ≡ replay_text replay.now) }
{
    let mut text = bases_text(alloc, &replay.dens, &replay.greatest)?;
    add_records(alloc, &mut text, &last_rows(alloc, replay)?)?;
    Ok(text)
}
