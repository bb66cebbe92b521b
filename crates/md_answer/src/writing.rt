//! Writing a whole answer.
ghost use Rattle.std.specs.Prelude.{◌≡◌, ◌++◌, IfOk, OnOk, Ok, true};
ghost use Rattle.md_setting.specs.ByKind.{WhereAuction, WhereGeneral, has_no_groups};
ghost use Rattle.md_answer.specs.declared.answer.Answer.{Answer};
ghost use Rattle.md_answer.specs.AnswerTo.{IsAnswerTo, HasPlaces};
ghost use Rattle.md_answer.specs.Answers.{answer_of};
ghost use Rattle.md_answer.specs.AuctionAnswerTo.{IsAuctionAnswer};
ghost use Rattle.md_answer.specs.AuctionAnswers.{auction_answer_of};
ghost use Rattle.md_answer.specs.AuctionRows.{text_of_auction_answer};
ghost use Rattle.md_answer.specs.Rows.{inner_rows, version_in, kind_in, answer_rows, text_of_answer};

use crate::auction_writing::write_auction_answer;
use crate::kind::Kind;
use crate::{Answer, Supply};
use md_num::NoMemory;
use md_parts::{
    Version, push_bound, push_end, push_face, push_first, push_mechanism, push_pays, push_second,
    push_value, push_wide,
};
use md_records::{Row, write_records};
use md_setting::{Setting, SettingFile};
use std::alloc::Global;

/// The version of the format in which an answer stands.
pub(crate) fn version_of(answer: &Answer) -> Version
    ensures { result ≡ version_in answer.now }
{
    match answer {
        Answer::TooWide {
            second: Some(_),
            ..
        } => Version::Two,
        _ => Version::One,
    }
}

// The kind of an answer.
fn kind_of(answer: &Answer) -> Kind
    ensures { result ≡ kind_in answer.now }
{
    match answer {
        Answer::Table(_) => Kind::Table,
        Answer::Optimal { .. } | Answer::AuctionOptimal { .. } => Kind::Optimal,
        Answer::Infeasible { .. } => Kind::Infeasible,
        Answer::Unbounded { .. } => Kind::Unbounded,
        Answer::TooWide { .. } => Kind::TooWide,
    }
}

// Adds what stands between the first record and the last.
fn push_inner(
    alloc: Global,
    rows: &mut Vec<Row>,
    setting: &Setting,
    answer: &Answer,
) -> Result<(), NoMemory>
    requires { IsAnswerTo setting.now answer.now }
    ensures rows { OnOk result (rows.new.items ≡ rows.old.items ++ inner_rows setting.now answer.now) }
    ensures places { OnOk result (HasPlaces answer.now) }
{
    match answer {
        Answer::Table(mechanism) => push_mechanism(alloc, rows, setting, mechanism),
        Answer::Optimal {
            value,
            mechanism,
            bound,
        } => {
            push_value(alloc, rows, *value)?;
            push_mechanism(alloc, rows, setting, mechanism)?;
            push_bound(alloc, rows, setting.rows(), bound)
        }
        Answer::Infeasible { face } => push_face(alloc, rows, setting.rows(), face),
        Answer::Unbounded { mechanism, ray } => {
            push_mechanism(alloc, rows, setting, mechanism)?;
            push_pays(alloc, rows, setting, "ray", ray)
        }
        Answer::AuctionOptimal { .. } => unreachable!(),
        Answer::TooWide {
            cuts: _,
            first,
            second,
        } => {
            push_wide(alloc, rows, first)?;
            push_second(alloc, rows, second)
        }
    }
}

// All records of an answer.
fn records_of(alloc: Global, setting: &Setting, answer: &Answer) -> Result<Vec<Row>, NoMemory>
    requires { IsAnswerTo setting.now answer.now }
    ensures rows { IfOk result (λ rows. rows.items ≡ answer_rows setting.now answer.now) }
    ensures places { IfOk result (λ _. HasPlaces answer.now) }
{
    let mut rows = Vec::new(alloc);
    let (version, kind) = (version_of(answer), kind_of(answer));
    push_first(alloc, &mut rows, version, "general", kind.word())?;
    push_inner(alloc, &mut rows, setting, answer)?;
    push_end(alloc, &mut rows)?;
    Ok(rows)
}

// The text of an answer about a setting.
fn text_about(alloc: Global, setting: &Setting, answer: &Answer) -> Result<Vec<u8>, NoMemory>
    requires { IsAnswerTo setting.now answer.now }
    ensures text { IfOk result (λ text. text.items ≡ text_of_answer setting.now answer.now) }
    ensures reads_back { IfOk result (λ text. answer_of setting.now text.items ≡ Ok answer.now) }
    ensures law { (a : Answer) → IsAnswerTo setting.now a → HasPlaces a → answer_of setting.now (text_of_answer setting.now a) ≡ Ok a }
{
    let _few = setting.rows();
    let rows = records_of(alloc, setting, answer)?;
    write_records(alloc, &rows)
}

/// Writes an answer about the general setting or the auction of a file as its one text.
///
/// # Errors
/// Want of memory.
pub fn write_answer(alloc: Global, file: &SettingFile, answer: &Answer) -> Result<Vec<u8>, NoMemory>
    requires kind { has_no_groups file.now ≡ true }
    requires fits { WhereGeneral (λ s. IsAnswerTo s answer.now) file.now }
    requires auction_fits { WhereAuction (λ a. IsAuctionAnswer a answer.now) file.now }
    ensures text { WhereGeneral (λ s. IfOk result (λ text. text.items ≡ text_of_answer s answer.now)) file.now }
    ensures auction_text { WhereAuction (λ a. IfOk result (λ text. text.items ≡ text_of_auction_answer a answer.now)) file.now }

    // What is written is read as the same answer.
    ensures reads_back { WhereGeneral (λ s. IfOk result (λ text. answer_of s text.items ≡ Ok answer.now)) file.now }
    ensures auction_reads_back { WhereAuction (λ a. IfOk result (λ text. auction_answer_of a text.items ≡ Ok answer.now)) file.now }
    ensures law { (a : Answer) → WhereGeneral (λ s. IsAnswerTo s a → HasPlaces a → answer_of s (text_of_answer s a) ≡ Ok a) file.now }
    ensures auction_law { (told : Answer) → WhereAuction (λ a. IsAuctionAnswer a told → HasPlaces told → auction_answer_of a (text_of_auction_answer a told) ≡ Ok told) file.now }
{
    match file {
        SettingFile::General(setting) => text_about(alloc, setting, answer),
        SettingFile::Auction(auction) => {
            write_auction_answer(alloc, auction, &Supply::Item, answer)
        },
        SettingFile::Bidders(_) => unreachable!(),
    }
}
