//! What is drawn of an answer.
ghost use Rattle.std.specs.Prelude.{IfOk, IfErr, ◌≡◌, true};
ghost use Rattle.md_setting.specs.ByKind.{WhereAuction, WhereGeneral, has_no_groups};
ghost use Rattle.md_setting.specs.declared.file.SettingFile.TheVariants as files;
ghost use Rattle.md_answer.specs.AnswerTo.{IsAnswerTo};
ghost use Rattle.md_answer.specs.AuctionAnswerTo.{IsAuctionAnswer};
ghost use Rattle.md_run.specs.Drawn.{IsDrawn, AreLotteries};
ghost use Rattle.md_run.specs.Refusals.{IsRefused};

use crate::auction::draw_at;
use crate::general::draw_of;
use crate::{DrawRefusal, Drawn};
use md_answer::Answer;
use md_setting::{Auction, Setting, SettingFile};
use std::alloc::Global;

/// The outcome that two draws give at a profile of reports, and what each agent then pays, by the mechanism of an answer.
///
/// Of a general setting the first draw is one of as many as the denominator has units, and the second is 0. Of an auction
/// the reports are places of values. The first draw gives the value that wins, and is one of as many as there are units at
/// the profile's counts: the denominator times their weight. The second draw gives the bidder among those with this value,
/// and is one of as many as there are. Where the item is kept, it is 0. All draws begin with 0.
pub fn draw(
    alloc: Global,
    file: &SettingFile,
    answer: &Answer,
    profile: &[u8],
    d1: i128,
    d2: i128,
) -> Result<Drawn, DrawRefusal>
    requires kind { has_no_groups file.now ≡ true }
    requires general { WhereGeneral (λ s. IsAnswerTo s answer.now) file.now }
    requires auction { WhereAuction (λ a. IsAuctionAnswer a answer.now) file.now }
    ensures drawn { IfOk result (IsDrawn file.now answer.now profile.now d1 d2) }

    // The first reason not to draw is told.
    ensures refused { IfErr result (IsRefused file.now answer.now profile.now d1 d2) }

    // Over all draws that may be, each outcome is drawn as often as its chance says.
    ensures lottery { AreLotteries file.now answer.now }
{
    match file {
        SettingFile::General(setting) => draw_general(alloc, setting, answer, profile, d1, d2),
        SettingFile::Auction(auction) => draw_auction(alloc, auction, answer, profile, d1, d2),
        SettingFile::Bidders(_) => unreachable!(),
    }
}

// What is drawn of an answer about a general setting.
fn draw_general(
    alloc: Global,
    setting: &Setting,
    answer: &Answer,
    profile: &[u8],
    d1: i128,
    d2: i128,
) -> Result<Drawn, DrawRefusal>
    requires answers { IsAnswerTo setting.now answer.now }
    ensures drawn { IfOk result (IsDrawn (files.General setting.now) answer.now profile.now d1 d2) }
    ensures refused { IfErr result (IsRefused (files.General setting.now) answer.now profile.now d1 d2) }
{
    match answer {
        Answer::Table(mechanism) => draw_of(alloc, setting, mechanism, profile, d1, d2),
        Answer::Optimal { mechanism, .. } => draw_of(alloc, setting, mechanism, profile, d1, d2),
        Answer::Unbounded { mechanism, .. } => draw_of(alloc, setting, mechanism, profile, d1, d2),
        _ => Err(DrawRefusal::NoTable),
    }
}

// What is drawn of an answer about an auction.
fn draw_auction(
    alloc: Global,
    auction: &Auction,
    answer: &Answer,
    profile: &[u8],
    d1: i128,
    d2: i128,
) -> Result<Drawn, DrawRefusal>
    requires answers { IsAuctionAnswer auction.now answer.now }
    ensures drawn { IfOk result (IsDrawn (files.Auction auction.now) answer.now profile.now d1 d2) }
    ensures refused { IfErr result (IsRefused (files.Auction auction.now) answer.now profile.now d1 d2) }
    ensures lottery { AreLotteries (files.Auction auction.now) answer.now }
{
    match answer {
        Answer::AuctionOptimal {
            interim,
            masses,
            ..
        } => draw_at(alloc, auction, interim, masses, profile, d1, d2),
        _ => Err(DrawRefusal::NoTable),
    }
}
