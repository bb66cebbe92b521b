//! Writing a whole answer about an auction, or about several units.
ghost use Rattle.std.specs.Prelude.{◌≡◌, ◌++◌, IfOk, OnOk, Ok};
ghost use Rattle.md_answer.specs.declared.answer.Answer.{Answer};
ghost use Rattle.md_answer.specs.AnswerTo.{HasPlaces};
ghost use Rattle.md_answer.specs.AuctionAnswerTo.{IsAnswerFor};
ghost use Rattle.md_answer.specs.AuctionAnswers.{answer_for};
ghost use Rattle.md_answer.specs.AuctionRows.{inner_rows, kind_in, rows_for, text_for, written_version};

use crate::auction_kind::AuctionKind;
use crate::interim_records::push_interim;
use crate::mass_records::push_masses;
use crate::reduced::reduced_rows;
use crate::writing::version_of;
use crate::{Answer, Supply};
use md_counts::Counts;
use md_num::NoMemory;
use md_parts::{
    Version, push_bound, push_cuts, push_end, push_first, push_second, push_value, push_wide,
};
use md_records::{Row, write_records};
use md_setting::Auction;
use std::alloc::Global;

// The kind of an answer.
fn kind_of(answer: &Answer) -> AuctionKind
    ensures { result ≡ kind_in answer.now }
{
    match answer {
        Answer::AuctionOptimal { .. } => AuctionKind::Optimal,
        _ => AuctionKind::TooWide,
    }
}

// The version of the first record.
fn version(supply: &Supply, answer: &Answer) -> Version
    ensures { result ≡ written_version supply.now answer.now }
{
    match supply {
        Supply::Item => version_of(answer),
        Supply::Units(_) => Version::One,
    }
}

// Adds what stands between the first record and the last.
fn push_inner(
    alloc: Global,
    rows: &mut Vec<Row>,
    auction: &Auction,
    supply: &Supply,
    answer: &Answer,
) -> Result<(), NoMemory>
    requires { IsAnswerFor supply.now auction.now answer.now }
    ensures rows { OnOk result (rows.new.items ≡ rows.old.items ++ inner_rows auction.now answer.now) }
    ensures places { OnOk result (HasPlaces answer.now) }
{
    match answer {
        Answer::AuctionOptimal {
            value,
            interim,
            masses,
            cuts,
            bound,
        } => {
            let counts = Counts::of(alloc, auction)?;
            push_value(alloc, rows, *value)?;
            push_interim(alloc, rows, interim)?;
            push_masses(alloc, rows, auction, &counts, masses)?;
            push_cuts(alloc, rows, cuts)?;
            push_bound(alloc, rows, reduced_rows(auction, cuts), bound)
        }
        Answer::TooWide {
            cuts,
            first,
            second,
        } => {
            push_cuts(alloc, rows, cuts)?;
            push_wide(alloc, rows, first)?;
            push_second(alloc, rows, second)
        }
        Answer::Table(_)
        | Answer::Optimal { .. }
        | Answer::Infeasible { .. }
        | Answer::Unbounded { .. } => unreachable!(),
    }
}

// All records of an answer.
fn records_of(
    alloc: Global,
    auction: &Auction,
    supply: &Supply,
    answer: &Answer,
) -> Result<Vec<Row>, NoMemory>
    requires { IsAnswerFor supply.now auction.now answer.now }
    ensures rows { IfOk result (λ rows. rows.items ≡ rows_for supply.now auction.now answer.now) }
    ensures places { IfOk result (λ _. HasPlaces answer.now) }
{
    let mut rows = Vec::new(alloc);
    let (version, kind) = (version(supply, answer), kind_of(answer));
    push_first(alloc, &mut rows, version, supply.word(), kind.word())?;
    push_inner(alloc, &mut rows, auction, supply, answer)?;
    push_end(alloc, &mut rows)?;
    Ok(rows)
}

/// The one text of an answer about an auction of which this is sold.
///
/// # Errors
/// Want of memory.
pub fn write_auction_answer(
    alloc: Global,
    auction: &Auction,
    supply: &Supply,
    answer: &Answer,
) -> Result<Vec<u8>, NoMemory>
    requires { IsAnswerFor supply.now auction.now answer.now }
    ensures text { IfOk result (λ text. text.items ≡ text_for supply.now auction.now answer.now) }

    // What is written is read as the same answer.
    ensures reads_back { IfOk result (λ text. answer_for supply.now auction.now text.items ≡ Ok answer.now) }
    ensures law { (a : Answer) → IsAnswerFor supply.now auction.now a → HasPlaces a → answer_for supply.now auction.now (text_for supply.now auction.now a) ≡ Ok a }
{
    let _few = auction.kinds();
    let rows = records_of(alloc, auction, supply, answer)?;
    write_records(alloc, &rows)
}
