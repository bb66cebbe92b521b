//! The answer that `check` judges.
ghost use Rattle.std.specs.Prelude.{◌≡◌, ◌⊎◌, IfOk, IfErr, true};
ghost use Rattle.md_setting.specs.ByKind.{has_no_groups};
ghost use Rattle.md_cli_driver.specs.Reading.{Follows};
ghost use Rattle.md_cli_driver.specs.Refused.{status_of};
ghost use Rattle.md_cli_driver.specs.declared.refusal.Refusal.TheVariants as refusal;
ghost use Rattle.md_cli_judge.specs.Checked.{IsCheckable, checked_answer_in};

use crate::answer_form::{AnswerForm, form_of};
use md_answer::{Answer, read_answer};
use md_cli_driver::{AnswerText, Refusal, general};
use md_fair::{FairAnswer, read_fair};
use md_require_text::{RequiredAnswer, read_required};
use md_setting::SettingFile;
use md_tree::read_text;
use std::alloc::Global;

/// The answer that a second file says. One about deterministic mechanisms may be much larger than its text, and of one about a sale
/// it has to be known that the setting is one, so that their texts are kept.
#[derive(Drop)]
pub enum CheckedAnswer {
    /// About the best mechanism of a setting, or the best auction.
    Best(Answer),
    /// About the fairest mechanism.
    Fair(FairAnswer),
    /// About the best mechanism under conditions of the designer.
    Required(RequiredAnswer),
    /// About the best mechanism of a sale to bidders who differ.
    Asym(AnswerText),
    /// About the best deterministic mechanism.
    Determ(AnswerText),
}

/// The answer that a second file says of a setting.
pub(crate) fn read_checked(
    alloc: Global,
    file: &SettingFile,
    bytes: &[u8],
) -> Result<CheckedAnswer, Refusal>
    requires { has_no_groups file.now ≡ true }
    ensures follows { Follows (λ answer. answer) result (checked_answer_in file.now bytes.now) }
    ensures fits { IfOk result (IsCheckable file.now) }
    ensures errors { IfErr result (λ e. (e ≡ refusal.Memory) ⊎ (status_of e ≡ 66)) }
{
    match form_of(file, bytes) {
        AnswerForm::Best => Ok(CheckedAnswer::Best(read_answer(alloc, bytes, file)?)),
        AnswerForm::Fair => {
            let answer = read_fair(alloc, bytes, general(file))?;
            Ok(CheckedAnswer::Fair(answer))
        }
        AnswerForm::Required => {
            let answer = read_required(alloc, bytes, general(file))?;
            Ok(CheckedAnswer::Required(answer))
        }
        AnswerForm::Asym => Ok(CheckedAnswer::Asym(AnswerText::copy(alloc, bytes)?)),
        AnswerForm::Determ => {
            read_text(alloc, general(file), bytes)?;
            Ok(CheckedAnswer::Determ(AnswerText::copy(alloc, bytes)?))
        }
    }
}
