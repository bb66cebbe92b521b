//! The records of interim odds and payments, read and written.
ghost use Rattle.std.specs.Prelude.{◌≡◌, ◌≢◌, ◌<◌, ◌≤◌, ◌^◌, ◌++◌, pos, Ok, Err, IfOk, OnOk, MatchResult};
ghost use Rattle.md_border.specs.Odds.{IsInterim};
ghost use Rattle.md_answer.specs.Odds.{interim_den, odds_in};
ghost use Rattle.md_answer.specs.InterimRecords.{pays_in, interim_in, interim_rows};

use crate::AnswerRefusal;
use md_border::Interim;
use md_num::{NoMemory, Nums};
use md_parts::{Range, Reader, push_numbers};
use md_records::Row;
use md_setting::Auction;
use std::alloc::Global;

/// The denominator of odds.
///
/// # Errors
/// The record may not stand there or has a wrong field, or want of memory.
pub(crate) fn read_denominator(reader: &mut Reader) -> Result<u64, AnswerRefusal>
    ensures read { MatchResult result
        (λ den. interim_den reader.old ≡ Ok (pos den, reader.new))
        (λ refusal. refusal ≢ AnswerRefusal.Memory → interim_den reader.old ≡ Err refusal) }
    ensures size { IfOk result (λ den. (1 ≤ den) × (den < 2 ^ 62)) }
{
    let mut fields = reader.next("interim", 1)?;
    let den = fields.number(62, Range::FromOne)?;
    Ok(den as u64)
}

/// The odds of the kinds of values, none of which is over the denominator.
///
/// # Errors
/// The record may not stand there or has a wrong field, or want of memory.
pub(crate) fn read_list(
    alloc: Global,
    reader: &mut Reader,
    auction: &Auction,
    den: u64,
) -> Result<Nums, AnswerRefusal>
    requires { den < 2 ^ 62 }
    ensures { MatchResult result
        (λ odds. odds_in auction.now (pos den) reader.old ≡ Ok (odds, reader.new))
        (λ refusal. refusal ≢ AnswerRefusal.Memory → odds_in auction.now (pos den) reader.old ≡ Err refusal) }
{
    let kinds = auction.kinds() as usize;
    let range = Range::Place {
        from: 0,
        below: den + 1,
    };
    let mut fields = reader.next("odds", kinds)?;
    let mut odds = Nums::new(alloc);
    fields.numbers(kinds, range, &mut odds)?;
    Ok(odds)
}

// What is paid, by the kind of the value.
fn read_pays(alloc: Global, reader: &mut Reader, auction: &Auction) -> Result<Nums, AnswerRefusal>
    ensures { MatchResult result
        (λ pays. pays_in auction.now reader.old ≡ Ok (pays, reader.new))
        (λ refusal. refusal ≢ AnswerRefusal.Memory → pays_in auction.now reader.old ≡ Err refusal) }
{
    let kinds = auction.kinds() as usize;
    let mut fields = reader.next("pays", kinds)?;
    let mut pays = Nums::new(alloc);
    fields.numbers(kinds, Range::Any, &mut pays)?;
    Ok(pays)
}

/// The odds and the payments over their denominator.
///
/// # Errors
/// The first record that may not stand there or has a wrong field, or want of memory.
pub(crate) fn read_interim(
    alloc: Global,
    reader: &mut Reader,
    auction: &Auction,
) -> Result<Interim, AnswerRefusal>
    ensures reads { MatchResult result
        (λ interim. interim_in auction.now reader.old ≡ Ok (interim, reader.new))
        (λ refusal. refusal ≢ AnswerRefusal.Memory → interim_in auction.now reader.old ≡ Err refusal) }
    ensures known { IfOk result (IsInterim auction.now) }
{
    let den = read_denominator(reader)?;
    let odds = read_list(alloc, reader, auction, den)?;
    let pays = read_pays(alloc, reader, auction)?;
    Ok(Interim {
        den: i128::from(den),
        odds,
        pays,
    })
}

/// Adds the records of odds and payments: their denominator, the odds by the kind of the value, and the payments.
///
/// # Errors
/// Want of memory.
pub fn push_interim(alloc: Global, rows: &mut Vec<Row>, interim: &Interim) -> Result<(), NoMemory>
    ensures { OnOk result (rows.new.items ≡ rows.old.items ++ interim_rows interim.now) }
{
    push_numbers(alloc, rows, "interim", &[interim.den])?;
    push_numbers(alloc, rows, "odds", interim.odds.as_slice())?;
    push_numbers(alloc, rows, "pays", interim.pays.as_slice())
}
