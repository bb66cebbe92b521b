//! What `report` tells of.
ghost use Rattle.std.specs.Prelude.{◌≡◌, ◌⊎◌, IfOk, IfErr, true};
ghost use Rattle.md_setting.specs.ByKind.{has_no_groups};
ghost use Rattle.md_setting.specs.Auction.{SymmetricAuction};
ghost use Rattle.md_setting.specs.declared.file.SettingFile.TheVariants as files;
ghost use Rattle.md_answer.specs.AuctionAnswerTo.{IsAuctionAnswer};
ghost use Rattle.md_cli_driver.specs.Reading.{Follows};
ghost use Rattle.md_cli_driver.specs.Refused.{status_of};
ghost use Rattle.md_cli_driver.specs.declared.refusal.Refusal.TheVariants as refusal;
ghost use Rattle.md_cli_tell.specs.Reported.{IsReportable, auction_reported_in, mechanism_reported, names_another_word, odds_reported, reported_in};

use md_answer::{Answer, AnswerRefusal, Supply, read_auction_answer, read_auction_table};
use md_border::Interim;
use md_cli_driver::{AnswerText, Refusal};
use md_lp::Sets;
use md_mechanism_text::{Proposal, names_another_kind, read_mechanism_text};
use md_setting::{Auction, SettingFile};
use std::alloc::Global;

/// What `report` tells of.
#[derive(Drop)]
pub enum Reported {
    /// The mechanism of an answer about a general setting, with the conditions of the designer that it is to meet.
    Mechanism(Proposal),
    /// The odds and payments of an answer about an auction, with its cuts.
    Odds { interim: Interim, cuts: Sets },
    /// The odds and payments of an auction of the designer's own.
    Own(Interim),
    /// A text about a general setting that names another kind of answer.
    Other(AnswerText),
}

/// What a second file says to be told of.
pub(crate) fn read_reported(
    alloc: Global,
    file: &SettingFile,
    bytes: &[u8],
) -> Result<Reported, Refusal>
    requires { has_no_groups file.now ≡ true }
    ensures follows { Follows (λ reported. reported) result (reported_in file.now bytes.now) }
    ensures fits { IfOk result (IsReportable file.now) }
    ensures errors { IfErr result (λ e. (e ≡ refusal.Memory) ⊎ (status_of e ≡ 66)) }
{
    match file {
        SettingFile::General(_) => match read_mechanism_text(alloc, bytes, file) {
            Err(refusal) if names_another_kind(refusal) => {
                Ok(Reported::Other(AnswerText::copy(alloc, bytes)?))
            }
            read => mechanism_reported(read?),
        },
        SettingFile::Auction(auction) => read_auction_reported(alloc, auction, bytes),
        SettingFile::Bidders(_) => unreachable!(),
    }
}

// A mechanism to be told of, which an answer must have.
fn mechanism_reported(found: Option<Proposal>) -> Result<Reported, Refusal>
    ensures { result ≡ mechanism_reported found }
{
    match found {
        Some(proposal) => Ok(Reported::Mechanism(proposal)),
        None => Err(Refusal::NoTable),
    }
}

// What is told of an auction: an answer, or an auction of the designer's own.
fn read_auction_reported(
    alloc: Global,
    auction: &Auction,
    bytes: &[u8],
) -> Result<Reported, Refusal>
    ensures follows { Follows (λ reported. reported) result (auction_reported_in auction.now bytes.now) }
    ensures fits { IfOk result (IsReportable (files.Auction auction.now)) }
    ensures errors { IfErr result (λ e. (e ≡ refusal.Memory) ⊎ (status_of e ≡ 66)) }
{
    match read_auction_answer(alloc, bytes, auction, &Supply::Item) {
        Err(refusal) if names_another_word(refusal) => {
            Ok(Reported::Own(read_auction_table(alloc, bytes, auction)?))
        }
        read => odds_reported(read?),
    }
}

// Whether an answer is refused since its first record has another word than those of answers about auctions.
fn names_another_word(refusal: AnswerRefusal) -> bool
    ensures { result ≡ names_another_word refusal }
{
    matches!(refusal, AnswerRefusal::Cell(1, 4))
}

// The odds and payments of an answer, which must have some.
fn odds_reported(answer: Answer) -> Result<Reported, Refusal>
    ensures reported { result ≡ odds_reported answer }
    ensures fits { (a : SymmetricAuction) → IsAuctionAnswer a answer → IfOk result (IsReportable (files.Auction a)) }
{
    match answer {
        Answer::AuctionOptimal {
            interim,
            cuts,
            value: _,
            masses: _,
            bound: _,
        } => Ok(Reported::Odds { interim, cuts }),
        Answer::TooWide {
            cuts: _,
            first: _,
            second: _,
        } => Err(Refusal::NoTable),
        Answer::Table(_) => Err(Refusal::NoTable),
        Answer::Optimal {
            value: _,
            mechanism: _,
            bound: _,
        } => Err(Refusal::NoTable),
        Answer::Infeasible { face: _ } => Err(Refusal::NoTable),
        Answer::Unbounded {
            mechanism: _,
            ray: _,
        } => Err(Refusal::NoTable),
    }
}
