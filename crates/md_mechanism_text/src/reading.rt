//! Reading the mechanism of an answer.
ghost use Rattle.std.specs.Prelude.{◌≡◌, ◌≢◌, Ok, Err, List, [], IfOk, IfSome, MatchResult};
ghost use Rattle.md_setting.specs.Setting.{GeneralSetting};
ghost use Rattle.md_setting.specs.ByKind.{IsGeneral, WhereGeneral};
ghost use Rattle.md_mech.specs.Accepted.{IsAccepted};
ghost use Rattle.md_answer.specs.AnswerTo.{IsAnswerTo};
ghost use Rattle.md_question.specs.Shown.{IsFindingTo};
ghost use Rattle.md_fair.specs.FairQuestion.{fair_question};
ghost use Rattle.md_fair.specs.FairRows.{IsFairAnswer};
ghost use Rattle.md_require.specs.declared.condition.Condition.{Condition};
ghost use Rattle.md_require.specs.RequireQuestion.{require_question};
ghost use Rattle.md_mechanism_text.specs.MechanismText.{mechanism_found, mechanism_of, mechanism_of_fairest, mechanism_text_of, names_another_kind, other_kind_in, required_in};
ghost use Rattle.md_mechanism_text.specs.Proposals.{AreAsked, IsProposedFor, proposed_under};

use crate::proposal::Proposal;
use md_answer::{Answer, read_answer};
use md_fair::{FairAnswer, read_fair};
use md_mech::Mechanism;
use md_parts::AnswerRefusal;
use md_question::Finding;
use md_require::Condition;
use md_require_text::read_required;
use md_setting::{Setting, SettingFile};
use std::alloc::Global;

/// Reads the mechanism of an answer about the general setting of a file, if the answer has one: it is about the best mechanism, about
/// the fairest one, or about the best one under conditions of the designer. These come with it; in the other answers there are none.
///
/// # Errors
/// The first record that may not stand there, has a wrong field or does not add to what it must, that no end stands
/// among the records, or that memory ran out.
pub fn read_mechanism_text(
    alloc: Global,
    bytes: &[u8],
    file: &SettingFile,
) -> Result<Option<Proposal>, AnswerRefusal>
    requires { IsGeneral file.now }
    ensures reads { WhereGeneral (λ s. MatchResult result
        (λ found. mechanism_text_of s bytes.now ≡ Ok found)
        (λ refusal. refusal ≢ AnswerRefusal.Memory → mechanism_text_of s bytes.now ≡ Err refusal)) file.now }

    // What is read has the sizes of the setting, its numbers are in their ranges, and its conditions fit the setting.
    ensures fits { WhereGeneral (λ s. IfOk result (λ found. IfSome found (IsProposedFor s))) file.now }
{
    match file {
        SettingFile::General(setting) => match read_answer(alloc, bytes, file) {
            Ok(answer) => Ok(under_none(alloc, mechanism_of(answer))),
            Err(refusal) if names_another_kind(refusal) => read_other_kind(alloc, bytes, setting),
            Err(refusal) => Err(refusal),
        },
        SettingFile::Auction(_) | SettingFile::Bidders(_) => unreachable!(),
    }
}

/// Whether an answer is refused since its first record names another kind of answers.
pub fn names_another_kind(refusal: AnswerRefusal) -> bool
    ensures { result ≡ names_another_kind refusal }
{
    matches!(refusal, AnswerRefusal::Cell(1, 3))
}

// The mechanism of an answer about the fairest one, or about the best one under conditions.
fn read_other_kind(
    alloc: Global,
    bytes: &[u8],
    setting: &Setting,
) -> Result<Option<Proposal>, AnswerRefusal>
    ensures reads { MatchResult result
        (λ found. other_kind_in setting.now bytes.now ≡ Ok found)
        (λ refusal. refusal ≢ AnswerRefusal.Memory → other_kind_in setting.now bytes.now ≡ Err refusal) }
    ensures fits { IfOk result (λ found. IfSome found (IsProposedFor setting.now)) }
{
    match read_fair(alloc, bytes, setting) {
        Ok(answer) => Ok(under_none(alloc, mechanism_of_fairest(answer))),
        Err(refusal) if names_another_kind(refusal) => read_best_required(alloc, bytes, setting),
        Err(refusal) => Err(refusal),
    }
}

// The mechanism of an answer about the best one under conditions, with these.
fn read_best_required(
    alloc: Global,
    bytes: &[u8],
    setting: &Setting,
) -> Result<Option<Proposal>, AnswerRefusal>
    ensures reads { MatchResult result
        (λ found. required_in setting.now bytes.now ≡ Ok found)
        (λ refusal. refusal ≢ AnswerRefusal.Memory → required_in setting.now bytes.now ≡ Err refusal) }
    ensures fits { IfOk result (λ found. IfSome found (IsProposedFor setting.now)) }
{
    let answer = read_required(alloc, bytes, setting)?;
    let (conditions, finding) = answer.into_parts();
    Ok(proposed_under(conditions, mechanism_found(finding)))
}

// A mechanism, where there is one, with these conditions.
fn proposed_under(conditions: Vec<Condition>, found: Option<Mechanism>) -> Option<Proposal>
    ensures given { result ≡ proposed_under conditions.items found }
    ensures fits { (s : GeneralSetting) → AreAsked s conditions.items → IfSome found (IsAccepted s) → IfSome result (IsProposedFor s) }
{
    match found {
        Some(mechanism) => Some(Proposal::new(mechanism, conditions)),
        None => None,
    }
}

// The same with no conditions.
fn under_none(alloc: Global, found: Option<Mechanism>) -> Option<Proposal>
    ensures given { result ≡ proposed_under [] found }
    ensures fits { (s : GeneralSetting) → IfSome found (IsAccepted s) → IfSome result (IsProposedFor s) }
{
    proposed_under(Vec::new(alloc), found)
}

// The mechanism of an answer about the best one, where it has one.
fn mechanism_of(answer: Answer) -> Option<Mechanism>
    ensures given { result ≡ mechanism_of answer }
    ensures accepted { (s : GeneralSetting) → IsAnswerTo s answer → IfSome result (IsAccepted s) }
{
    match answer {
        Answer::Table(mechanism) => Some(mechanism),
        Answer::Optimal {
            mechanism,
            value: _,
            bound: _,
        } => Some(mechanism),
        Answer::Unbounded { mechanism, ray: _ } => Some(mechanism),
        Answer::Infeasible { face: _ } => None,
        Answer::AuctionOptimal {
            value: _,
            interim: _,
            masses: _,
            cuts: _,
            bound: _,
        } => None,
        Answer::TooWide {
            cuts: _,
            first: _,
            second: _,
        } => None,
    }
}

// The same of an answer about the fairest one.
fn mechanism_of_fairest(answer: FairAnswer) -> Option<Mechanism>
    ensures given { result ≡ mechanism_of_fairest answer }
    ensures accepted { (s : GeneralSetting) → IsFairAnswer s answer → IfSome result (IsAccepted s) }
{
    match answer {
        FairAnswer::Found(finding) => mechanism_found(finding),
        FairAnswer::TooWide {
            first: _,
            second: _,
        } => None,
    }
}

// The mechanism that was found, if one was.
fn mechanism_found(finding: Finding) -> Option<Mechanism>
    ensures given { result ≡ mechanism_found finding }
    ensures accepted { (s : GeneralSetting) → IsFindingTo (fair_question s) finding → IfSome result (IsAccepted s) }
    ensures required { (s : GeneralSetting) (conditions : List Condition) → IsFindingTo (require_question s conditions) finding → IfSome result (IsAccepted s) }
{
    match finding {
        Finding::Optimal {
            mechanism,
            value: _,
            bound: _,
        } => Some(mechanism),
        Finding::Unbounded { mechanism, ray: _ } => Some(mechanism),
        Finding::Infeasible { face: _ } => None,
    }
}
