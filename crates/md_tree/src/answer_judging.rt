//! The verdict on what stands between the first record and the last, as it is read.
ghost use Rattle.std.specs.Prelude.{◌≡◌, ◌≢◌, ◌<◌, ◌^◌, Err, IfOk, length, MatchResult};
ghost use Rattle.md_tree.specs.declared.verdict.DetVerdict.TheVariants.{Valid};
ghost use Rattle.md_tree.specs.AnswerTo.{IsDetAnswerTo};
ghost use Rattle.md_tree.specs.Verdicts.{IsVerdict};
ghost use Rattle.md_tree.specs.AnswerText.{answer_by, infeasible_answer, optimal_answer};
ghost use Rattle.md_tree.specs.Judging.{IsJudged};

use crate::answer::DetAnswer;
use crate::checking::check_determ;
use crate::kind::Kind;
use crate::reading::read_by_kind;
use crate::rule_judging::judge_rule;
use crate::tree_judging::judge_tree;
use crate::verdict::DetVerdict;
use md_num::NoMemory;
use md_parts::{AnswerRefusal, Reader, read_mechanism, read_value};
use md_setting::Setting;
use std::alloc::Global;

/// The verdict on what stands between the first record and the last, by which answer it is. What is known before it stays,
/// unless it is valid.
pub(crate) fn judge_by_kind(
    alloc: Global,
    reader: &mut Reader,
    setting: &Setting,
    kind: Kind,
    known: DetVerdict,
) -> Result<DetVerdict, AnswerRefusal>
    requires few { length reader.old.left < 2 ^ 64 }
    ensures { MatchResult result
        (IsJudged setting.now (answer_by setting.now kind) known reader.old reader.new)
        (λ refusal. refusal ≢ AnswerRefusal.Memory → answer_by setting.now kind reader.old ≡ Err refusal) }
{
    match kind {
        Kind::Optimal => judge_optimal(alloc, reader, setting, known),
        Kind::Infeasible => judge_infeasible(alloc, reader, setting, known),
        Kind::Unbounded | Kind::TooWide => judge_whole(alloc, reader, setting, kind, known),
    }
}

// The verdict on a value, a mechanism and a tree.
fn judge_optimal(
    alloc: Global,
    reader: &mut Reader,
    setting: &Setting,
    known: DetVerdict,
) -> Result<DetVerdict, AnswerRefusal>
    requires few { length reader.old.left < 2 ^ 64 }
    ensures { MatchResult result
        (IsJudged setting.now (optimal_answer setting.now) known reader.old reader.new)
        (λ refusal. refusal ≢ AnswerRefusal.Memory → optimal_answer setting.now reader.old ≡ Err refusal) }
{
    let value = read_value(reader)?;
    let mechanism = read_mechanism(alloc, reader, setting)?;
    let ruled = judge_rule(setting, &value, &mechanism, known);
    judge_tree(alloc, reader, setting, Some(&mechanism), ruled)
}

// The verdict on a tree alone.
fn judge_infeasible(
    alloc: Global,
    reader: &mut Reader,
    setting: &Setting,
    known: DetVerdict,
) -> Result<DetVerdict, AnswerRefusal>
    requires few { length reader.old.left < 2 ^ 64 }
    ensures { MatchResult result
        (IsJudged setting.now (infeasible_answer setting.now) known reader.old reader.new)
        (λ refusal. refusal ≢ AnswerRefusal.Memory → infeasible_answer setting.now reader.old ≡ Err refusal) }
{
    judge_tree(alloc, reader, setting, None, known)
}

// The verdict on an answer that is read as a whole, since it has no tree.
fn judge_whole(
    alloc: Global,
    reader: &mut Reader,
    setting: &Setting,
    kind: Kind,
    known: DetVerdict,
) -> Result<DetVerdict, AnswerRefusal>
    ensures { MatchResult result
        (IsJudged setting.now (answer_by setting.now kind) known reader.old reader.new)
        (λ refusal. refusal ≢ AnswerRefusal.Memory → answer_by setting.now kind reader.old ≡ Err refusal) }
{
    let answer = read_by_kind(alloc, reader, setting, kind)?;
    Ok(judge_answer(alloc, setting, &answer, known)?)
}

// The verdict on an answer that was read.
fn judge_answer(
    alloc: Global,
    setting: &Setting,
    answer: &DetAnswer,
    known: DetVerdict,
) -> Result<DetVerdict, NoMemory>
    requires { IsDetAnswerTo setting.now answer.now }
    ensures { IfOk result (λ verdict. known ≡ Valid → IsVerdict setting.now answer.now verdict) }
{
    match known {
        DetVerdict::Valid => check_determ(alloc, setting, answer),
        DetVerdict::Undecided | DetVerdict::Rejected(_) => Ok(known),
    }
}
