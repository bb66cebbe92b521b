//! Reading a file of pivots.
ghost use Rattle.std.specs.Prelude.{◌≡◌, ◌≢◌, Ok, Err, IfOk, MatchResult, true};
ghost use Rattle.md_setting.specs.ByKind.{WhereAuction, WhereGeneral, has_no_groups};
ghost use Rattle.md_answer.specs.Pivots.{pivots_with, pivots_of, HasNoCuts, HasPivotPlaces};
ghost use Rattle.md_answer.specs.AuctionPivots.{auction_pivots_of, HasCutsOf};

use crate::AnswerRefusal;
use md_lp::{Path, Sets};
use md_parts::{Reader, read_cuts, read_last, read_path};
use md_setting::{Auction, SettingFile};
use std::alloc::Global;

/// The pivots that a pivots file lists, in their order. The cuts are the rows that were added to the program: none for
/// a general setting.
#[derive(Drop)]
pub struct Pivots {
    pub cuts: Sets,
    pub path: Path,
}

// Reads the pivots of a program with some cuts, and the end.
fn read_listed(alloc: Global, reader: &mut Reader, cuts: Sets) -> Result<Pivots, AnswerRefusal>
    ensures reads { MatchResult result
        (λ pivots. pivots_with cuts reader.old ≡ Ok (pivots, reader.new))
        (λ refusal. refusal ≢ AnswerRefusal.Memory → pivots_with cuts reader.old ≡ Err refusal) }
    ensures cuts { IfOk result (λ pivots. pivots.cuts ≡ cuts) }
    ensures places { IfOk result HasPivotPlaces }
{
    let path = read_path(alloc, reader)?;
    read_last(reader)?;
    Ok(Pivots { cuts, path })
}

// Reads pivots of a program without cuts.
fn read_without_cuts(alloc: Global, bytes: &[u8]) -> Result<Pivots, AnswerRefusal>
    ensures reads { MatchResult result
        (λ pivots. pivots_of bytes.now ≡ Ok pivots)
        (λ refusal. refusal ≢ AnswerRefusal.Memory → pivots_of bytes.now ≡ Err refusal) }
    ensures accepted { IfOk result HasNoCuts }
    ensures places { IfOk result HasPivotPlaces }
{
    let mut reader = Reader::new(alloc, bytes)?;
    read_listed(alloc, &mut reader, Sets::new(alloc))
}

// Reads pivots of an auction's program, behind its cuts.
fn read_with_cuts(alloc: Global, bytes: &[u8], auction: &Auction) -> Result<Pivots, AnswerRefusal>
    ensures reads { MatchResult result
        (λ pivots. auction_pivots_of auction.now bytes.now ≡ Ok pivots)
        (λ refusal. refusal ≢ AnswerRefusal.Memory → auction_pivots_of auction.now bytes.now ≡ Err refusal) }
    ensures accepted { IfOk result (HasCutsOf auction.now) }
    ensures places { IfOk result HasPivotPlaces }
{
    let mut reader = Reader::new(alloc, bytes)?;
    let cuts = read_cuts(alloc, &mut reader, auction.kinds())?;
    read_listed(alloc, &mut reader, cuts)
}

/// Reads the pivots of a file about a general setting or an auction: for an auction the cuts of its program, one record
/// for each pivot, and then the end. They are not tried on the program.
///
/// # Errors
/// The first record that may not stand there or has a wrong field, that no end stands among the records, or want of
/// memory.
pub fn read_pivots(alloc: Global, bytes: &[u8], file: &SettingFile) -> Result<Pivots, AnswerRefusal>
    requires { has_no_groups file.now ≡ true }
    ensures reads { WhereGeneral (λ _. MatchResult result
        (λ pivots. pivots_of bytes.now ≡ Ok pivots)
        (λ refusal. refusal ≢ AnswerRefusal.Memory → pivots_of bytes.now ≡ Err refusal)) file.now }
    ensures auction_reads { WhereAuction (λ a. MatchResult result
        (λ pivots. auction_pivots_of a bytes.now ≡ Ok pivots)
        (λ refusal. refusal ≢ AnswerRefusal.Memory → auction_pivots_of a bytes.now ≡ Err refusal)) file.now }

    // The program of a general setting has no cuts, those of an auction are sets of its values, and rows and columns are
    // in their ranges.
    ensures accepted { WhereGeneral (λ _. IfOk result HasNoCuts) file.now }
    ensures auction_accepted { WhereAuction (λ a. IfOk result (HasCutsOf a)) file.now }
    ensures places { IfOk result HasPivotPlaces }
{
    match file {
        SettingFile::General(_) => read_without_cuts(alloc, bytes),
        SettingFile::Auction(auction) => read_with_cuts(alloc, bytes, auction),
        SettingFile::Bidders(_) => unreachable!(),
    }
}
