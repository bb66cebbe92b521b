//! Reading an auction of a designer's own.
ghost use Rattle.std.specs.Prelude.{◌≡◌, ◌≢◌, map, Ok, Err, IfOk, MatchResult};
ghost use Rattle.md_border.specs.Odds.{IsInterim};
ghost use Rattle.md_answer.specs.AuctionTables.{auction_table_of, table_words};

use crate::AnswerRefusal;
use crate::interim_records::read_interim;
use md_border::Interim;
use md_parts::{Reader, read_first, read_last};
use md_setting::Auction;
use std::alloc::Global;

// The words of first records.
fn table_words() -> [&'static str; 1]
    ensures { map (λ w. w.now) result ≡ table_words }
{
    ["table"]
}

/// Reads an auction of a designer's own: how often a bidder with each value wins, and what it pays, on average over the values
/// of the others. The first record is `answer,1,auction,table`; the denominator, the odds, the payments and the end follow.
///
/// # Errors
/// The first record that may not stand there or has a wrong field, that no end stands among the records, or want of
/// memory.
pub fn read_auction_table(
    alloc: Global,
    bytes: &[u8],
    auction: &Auction,
) -> Result<Interim, AnswerRefusal>
    ensures reads { MatchResult result
        (λ interim. auction_table_of auction.now bytes.now ≡ Ok interim)
        (λ refusal. refusal ≢ AnswerRefusal.Memory → auction_table_of auction.now bytes.now ≡ Err refusal) }
    ensures accepted { IfOk result (IsInterim auction.now) }
{
    let mut reader = Reader::new(alloc, bytes)?;
    let _ = read_first(&mut reader, "auction", &table_words())?;
    let interim = read_interim(alloc, &mut reader, auction)?;
    read_last(&mut reader)?;
    Ok(interim)
}
