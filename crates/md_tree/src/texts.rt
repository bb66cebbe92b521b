//! The verdict on the answer that a text says.
ghost use Rattle.std.specs.Prelude.{◌≡◌, ◌≢◌, Err, MatchResult};
ghost use Rattle.md_tree.specs.AnswerText.{determ_answer_of};
ghost use Rattle.md_tree.specs.Judging.{IsJudgedText};
ghost use Rattle.md_tree.specs.Texts.{IsCheckedText, IsReadText};

use crate::answer_judging::judge_by_kind;
use crate::first::read_kind;
use crate::verdict::DetVerdict;
use md_parts::{AnswerRefusal, Reader, read_last};
use md_setting::Setting;
use std::alloc::Global;

/// The verdict on the answer about the deterministic mechanisms of a setting that a text says: valid where all its conditions
/// hold, undecided where it claims nothing, and else rejected with the first condition that fails. Each leaf is checked as it is
/// read; once a condition failed, what is left is read alone. Memory is taken for the way through the tree, and for one leaf at a
/// time.
///
/// # Errors
/// The first record that may not stand there, has a wrong field or does not add to what it must, that no end stands
/// among the records, or that memory ran out.
pub fn check_text(
    alloc: Global,
    setting: &Setting,
    bytes: &[u8],
) -> Result<DetVerdict, AnswerRefusal>
    ensures { MatchResult result
        (IsCheckedText setting.now bytes.now)
        (λ refusal. refusal ≢ AnswerRefusal.Memory → determ_answer_of setting.now bytes.now ≡ Err refusal) }
{
    let _positive = setting.total();
    judge_text(alloc, setting, bytes, DetVerdict::Valid)
}

/// Reads an answer about the deterministic mechanisms of a setting, node by node, and keeps nothing of it.
///
/// # Errors
/// As above.
pub fn read_text(alloc: Global, setting: &Setting, bytes: &[u8]) -> Result<(), AnswerRefusal>
    ensures { MatchResult result
        (λ _. IsReadText setting.now bytes.now)
        (λ refusal. refusal ≢ AnswerRefusal.Memory → determ_answer_of setting.now bytes.now ≡ Err refusal) }
{
    let _ = judge_text(alloc, setting, bytes, DetVerdict::Undecided)?;
    Ok(())
}

// The verdict on the answer of a text. What is known before it is read stays, unless it is valid: only then is it checked.
fn judge_text(
    alloc: Global,
    setting: &Setting,
    bytes: &[u8],
    known: DetVerdict,
) -> Result<DetVerdict, AnswerRefusal>
    ensures { MatchResult result
        (IsJudgedText setting.now bytes.now known)
        (λ refusal. refusal ≢ AnswerRefusal.Memory → determ_answer_of setting.now bytes.now ≡ Err refusal) }
{
    let _fits = bytes.len();
    let mut reader = Reader::new(alloc, bytes)?;
    let kind = read_kind(&mut reader)?;
    let verdict = judge_by_kind(alloc, &mut reader, setting, kind, known)?;
    read_last(&mut reader)?;
    Ok(verdict)
}
