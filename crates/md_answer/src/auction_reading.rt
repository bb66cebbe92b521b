//! Reading a whole answer about an auction, or about several units.
ghost use Rattle.std.specs.Prelude.{◌≡◌, ◌≢◌, Ok, Err, IfOk, MatchResult};
ghost use Rattle.md_answer.specs.AuctionKinds.{kind_of};
ghost use Rattle.md_answer.specs.AuctionAnswerTo.{IsAnswerFor};
ghost use Rattle.md_answer.specs.AnswerTo.{HasPlaces};
ghost use Rattle.md_answer.specs.AuctionAnswers.{optimal_answer, too_wide_answer, version_for, answer_by, answer_for};

use crate::auction_kind::{AuctionKind, auction_words};
use crate::interim_records::read_interim;
use crate::mass_reading::read_masses;
use crate::reduced::reduced_rows;
use crate::{Answer, AnswerRefusal, Supply};
use md_parts::{
    Head, Reader, Version, read_bound, read_cuts, read_first, read_last, read_second, read_value,
    read_wide,
};
use md_setting::Auction;
use std::alloc::Global;

// A value, odds, payments and masses, and multipliers.
fn read_optimal(
    alloc: Global,
    reader: &mut Reader,
    auction: &Auction,
    supply: &Supply,
) -> Result<Answer, AnswerRefusal>
    ensures reads { MatchResult result
        (λ answer. optimal_answer supply.now auction.now reader.old ≡ Ok (answer, reader.new))
        (λ refusal. refusal ≢ AnswerRefusal.Memory → optimal_answer supply.now auction.now reader.old ≡ Err refusal) }
    ensures known { IfOk result (λ answer. IsAnswerFor supply.now auction.now answer × HasPlaces answer) }
{
    let value = read_value(reader)?;
    let interim = read_interim(alloc, reader, auction)?;
    let masses = read_masses(alloc, reader, auction, supply, &interim)?;
    let cuts = read_cuts(alloc, reader, auction.kinds())?;
    let bound = read_bound(alloc, reader, reduced_rows(auction, &cuts))?;
    Ok(Answer::AuctionOptimal {
        value,
        interim,
        masses,
        cuts,
        bound,
    })
}

// The version by which the part about the second path is read.
fn read_version(supply: &Supply, version: Version) -> Version
    ensures { result ≡ version_for supply.now version }
{
    match supply {
        Supply::Item => version,
        Supply::Units(_) => Version::Two,
    }
}

// Where the paths of the program with some cuts become too wide.
fn read_too_wide(
    alloc: Global,
    reader: &mut Reader,
    auction: &Auction,
    supply: &Supply,
    version: Version,
) -> Result<Answer, AnswerRefusal>
    ensures reads { MatchResult result
        (λ answer. too_wide_answer supply.now auction.now version reader.old ≡ Ok (answer, reader.new))
        (λ refusal. refusal ≢ AnswerRefusal.Memory → too_wide_answer supply.now auction.now version reader.old ≡ Err refusal) }
    ensures known { IfOk result (λ answer. IsAnswerFor supply.now auction.now answer × HasPlaces answer) }
{
    let cuts = read_cuts(alloc, reader, auction.kinds())?;
    let first = read_wide(alloc, reader)?;
    let second = read_second(alloc, reader, read_version(supply, version))?;
    Ok(Answer::TooWide {
        cuts,
        first,
        second,
    })
}

// What stands between the first record and the last.
fn read_by_kind(
    alloc: Global,
    reader: &mut Reader,
    auction: &Auction,
    supply: &Supply,
    head: Head,
) -> Result<Answer, AnswerRefusal>
    ensures reads { MatchResult result
        (λ answer. answer_by supply.now auction.now head.version (kind_of head.word) reader.old ≡ Ok (answer, reader.new))
        (λ refusal. refusal ≢ AnswerRefusal.Memory → answer_by supply.now auction.now head.version (kind_of head.word) reader.old ≡ Err refusal) }
    ensures known { IfOk result (λ answer. IsAnswerFor supply.now auction.now answer × HasPlaces answer) }
{
    match AuctionKind::at(head.word) {
        AuctionKind::Optimal => read_optimal(alloc, reader, auction, supply),
        AuctionKind::TooWide => read_too_wide(alloc, reader, auction, supply, head.version),
    }
}

/// Reads an answer about an auction of which this is sold.
///
/// # Errors
/// The first record that may not stand there, has a wrong field or adds to more than it may, that no end stands among the
/// records, or want of memory.
pub fn read_auction_answer(
    alloc: Global,
    bytes: &[u8],
    auction: &Auction,
    supply: &Supply,
) -> Result<Answer, AnswerRefusal>
    ensures reads { MatchResult result
        (λ answer. answer_for supply.now auction.now bytes.now ≡ Ok answer)
        (λ refusal. refusal ≢ AnswerRefusal.Memory → answer_for supply.now auction.now bytes.now ≡ Err refusal) }
    ensures accepted { IfOk result (IsAnswerFor supply.now auction.now) }
    ensures places { IfOk result HasPlaces }
{
    let mut reader = Reader::new(alloc, bytes)?;
    let head = read_first(&mut reader, supply.word(), &auction_words())?;
    let answer = read_by_kind(alloc, &mut reader, auction, supply, head)?;
    read_last(&mut reader)?;
    Ok(answer)
}
