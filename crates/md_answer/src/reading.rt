//! Reading a whole answer.
ghost use Rattle.std.specs.Prelude.{◌≡◌, ◌≢◌, Ok, Err, IfOk, MatchResult, true};
ghost use Rattle.md_setting.specs.Setting.{GeneralSetting};
ghost use Rattle.md_setting.specs.ByKind.{WhereAuction, WhereGeneral, has_no_groups};
ghost use Rattle.md_answer.specs.Kinds.{kind_of};
ghost use Rattle.md_answer.specs.AnswerTo.{IsAnswerTo, HasPlaces};
ghost use Rattle.md_answer.specs.AuctionAnswerTo.{IsAuctionAnswer};
ghost use Rattle.md_answer.specs.AuctionAnswers.{auction_answer_of};
ghost use Rattle.md_answer.specs.Answers.{table_answer, optimal_answer, infeasible_answer, unbounded_answer, too_wide_answer, answer_by, answer_of};

use crate::auction_reading::read_auction_answer;
use crate::kind::{Kind, answer_words};
use crate::{Answer, AnswerRefusal, Supply};
use md_lp::Sets;
use md_parts::{
    Head, Reader, Version, read_bound, read_face, read_first, read_last, read_mechanism, read_pays,
    read_second, read_value, read_wide,
};
use md_setting::{Setting, SettingFile};
use std::alloc::Global;

// A mechanism alone.
fn read_table(
    alloc: Global,
    reader: &mut Reader,
    setting: &Setting,
) -> Result<Answer, AnswerRefusal>
    ensures reads { MatchResult result
        (λ answer. table_answer setting.now reader.old ≡ Ok (answer, reader.new))
        (λ refusal. refusal ≢ AnswerRefusal.Memory → table_answer setting.now reader.old ≡ Err refusal) }
    ensures known { IfOk result (λ answer. IsAnswerTo setting.now answer × HasPlaces answer) }
{
    let mechanism = read_mechanism(alloc, reader, setting)?;
    Ok(Answer::Table(mechanism))
}

// A value, a mechanism and multipliers.
fn read_optimal(
    alloc: Global,
    reader: &mut Reader,
    setting: &Setting,
) -> Result<Answer, AnswerRefusal>
    ensures reads { MatchResult result
        (λ answer. optimal_answer setting.now reader.old ≡ Ok (answer, reader.new))
        (λ refusal. refusal ≢ AnswerRefusal.Memory → optimal_answer setting.now reader.old ≡ Err refusal) }
    ensures known { IfOk result (λ answer. IsAnswerTo setting.now answer × HasPlaces answer) }
{
    let value = read_value(reader)?;
    let mechanism = read_mechanism(alloc, reader, setting)?;
    let bound = read_bound(alloc, reader, setting.rows())?;
    Ok(Answer::Optimal {
        value,
        mechanism,
        bound,
    })
}

// Face multipliers alone.
fn read_infeasible(
    alloc: Global,
    reader: &mut Reader,
    setting: &Setting,
) -> Result<Answer, AnswerRefusal>
    ensures reads { MatchResult result
        (λ answer. infeasible_answer setting.now reader.old ≡ Ok (answer, reader.new))
        (λ refusal. refusal ≢ AnswerRefusal.Memory → infeasible_answer setting.now reader.old ≡ Err refusal) }
    ensures known { IfOk result (λ answer. IsAnswerTo setting.now answer × HasPlaces answer) }
{
    let face = read_face(alloc, reader, setting.rows())?;
    Ok(Answer::Infeasible { face })
}

// A mechanism and a ray.
fn read_unbounded(
    alloc: Global,
    reader: &mut Reader,
    setting: &Setting,
) -> Result<Answer, AnswerRefusal>
    ensures reads { MatchResult result
        (λ answer. unbounded_answer setting.now reader.old ≡ Ok (answer, reader.new))
        (λ refusal. refusal ≢ AnswerRefusal.Memory → unbounded_answer setting.now reader.old ≡ Err refusal) }
    ensures known { IfOk result (λ answer. IsAnswerTo setting.now answer × HasPlaces answer) }
{
    let mechanism = read_mechanism(alloc, reader, setting)?;
    let ray = read_pays(alloc, reader, setting, "ray")?;
    Ok(Answer::Unbounded { mechanism, ray })
}

// Where the paths become too wide.
fn read_too_wide(
    alloc: Global,
    reader: &mut Reader,
    version: Version,
) -> Result<Answer, AnswerRefusal>
    ensures reads { MatchResult result
        (λ answer. too_wide_answer version reader.old ≡ Ok (answer, reader.new))
        (λ refusal. refusal ≢ AnswerRefusal.Memory → too_wide_answer version reader.old ≡ Err refusal) }
    ensures known { (s : GeneralSetting) → IfOk result (λ answer. IsAnswerTo s answer × HasPlaces answer) }
{
    let first = read_wide(alloc, reader)?;
    let second = read_second(alloc, reader, version)?;
    Ok(Answer::TooWide {
        cuts: Sets::new(alloc),
        first,
        second,
    })
}

// What stands between the first record and the last.
fn read_by_kind(
    alloc: Global,
    reader: &mut Reader,
    setting: &Setting,
    head: Head,
) -> Result<Answer, AnswerRefusal>
    ensures reads { MatchResult result
        (λ answer. answer_by setting.now head.version (kind_of head.word) reader.old ≡ Ok (answer, reader.new))
        (λ refusal. refusal ≢ AnswerRefusal.Memory → answer_by setting.now head.version (kind_of head.word) reader.old ≡ Err refusal) }
    ensures known { IfOk result (λ answer. IsAnswerTo setting.now answer × HasPlaces answer) }
{
    match Kind::at(head.word) {
        Kind::Table => read_table(alloc, reader, setting),
        Kind::Optimal => read_optimal(alloc, reader, setting),
        Kind::Infeasible => read_infeasible(alloc, reader, setting),
        Kind::Unbounded => read_unbounded(alloc, reader, setting),
        Kind::TooWide => read_too_wide(alloc, reader, head.version),
    }
}

// Reads an answer about a setting.
fn read_about(alloc: Global, bytes: &[u8], setting: &Setting) -> Result<Answer, AnswerRefusal>
    ensures reads { MatchResult result
        (λ answer. answer_of setting.now bytes.now ≡ Ok answer)
        (λ refusal. refusal ≢ AnswerRefusal.Memory → answer_of setting.now bytes.now ≡ Err refusal) }
    ensures accepted { IfOk result (IsAnswerTo setting.now) }
    ensures places { IfOk result HasPlaces }
{
    let mut reader = Reader::new(alloc, bytes)?;
    let head = read_first(&mut reader, "general", &answer_words())?;
    let answer = read_by_kind(alloc, &mut reader, setting, head)?;
    read_last(&mut reader)?;
    Ok(answer)
}

/// Reads an answer about the general setting or the auction of a file.
///
/// # Errors
/// The first record that may not stand there, has a wrong field or does not add to what it must, that no end stands
/// among the records, or that memory ran out.
pub fn read_answer(alloc: Global, bytes: &[u8], file: &SettingFile) -> Result<Answer, AnswerRefusal>
    requires { has_no_groups file.now ≡ true }
    ensures reads { WhereGeneral (λ s. MatchResult result
        (λ answer. answer_of s bytes.now ≡ Ok answer)
        (λ refusal. refusal ≢ AnswerRefusal.Memory → answer_of s bytes.now ≡ Err refusal)) file.now }
    ensures auction_reads { WhereAuction (λ a. MatchResult result
        (λ answer. auction_answer_of a bytes.now ≡ Ok answer)
        (λ refusal. refusal ≢ AnswerRefusal.Memory → auction_answer_of a bytes.now ≡ Err refusal)) file.now }

    // What is read has the sizes of the setting or the auction, and its numbers are in their ranges.
    ensures accepted { WhereGeneral (λ s. IfOk result (IsAnswerTo s)) file.now }
    ensures auction_accepted { WhereAuction (λ a. IfOk result (IsAuctionAnswer a)) file.now }
    ensures places { IfOk result HasPlaces }
{
    match file {
        SettingFile::General(setting) => read_about(alloc, bytes, setting),
        SettingFile::Auction(auction) => {
            read_auction_answer(alloc, bytes, auction, &Supply::Item)
        },
        SettingFile::Bidders(_) => unreachable!(),
    }
}
