//! The command `check`: whether what an answer claims of a setting is so.
ghost use Rattle.std.specs.Prelude.{◌≡◌, ◌⊎◌, IfErr, IfOk, true};
ghost use Rattle.md_setting.specs.ByKind.{WhereAuction, WhereGeneral, has_no_groups};
ghost use Rattle.md_answer.specs.AnswerTo.{IsAnswerTo};
ghost use Rattle.md_answer.specs.AuctionAnswerTo.{IsAuctionAnswer};
ghost use Rattle.md_cli_driver.specs.declared.refusal.Refusal.TheVariants as refusal;
ghost use Rattle.md_cli_driver.specs.Refused.{refused, status_of};
ghost use Rattle.md_cli_driver.specs.Saying.{said};
ghost use Rattle.md_cli_judge.specs.Checked.{IsCheckable, IsChecked, checked_answer_in};
ghost use Rattle.md_cli_judge.specs.Checking.{IsCheck};
ghost use Rattle.md_cli_judge.specs.Verdicts.{IsCheckStatus};

use crate::checked_answer::{CheckedAnswer, read_checked};
use crate::verdict_text::tell_verdict;
use crate::{asym_check, determ_check, fair_check, require_check};
use md_answer::Answer;
use md_check::check;
use md_cli_driver::{Answered, Refusal, TwoFiles, general, has_no_groups};
use md_num::NoMemory;
use md_setting::SettingFile;
use std::alloc::Global;

/// `check SETTING ANSWER`
#[derive(Drop)]
pub struct Check;

impl TwoFiles for Check {
    type Second = CheckedAnswer;

    ghost is_served = { has_no_groups };

    ghost reading = { λ _. checked_answer_in };

    ghost fits = { λ _. IsCheckable };

    ghost says = { λ _. IsChecked };

    ghost own = { IsCheckStatus };

    fn serves(&self, file: &SettingFile) -> bool {
        has_no_groups(file)
    }

    fn second(
        &self,
        alloc: Global,
        file: &SettingFile,
        bytes: &[u8],
    ) -> Result<CheckedAnswer, Refusal> {
        read_checked(alloc, file, bytes)
    }

    fn answer(
        &self,
        alloc: Global,
        file: &SettingFile,
        answer: &CheckedAnswer,
    ) -> Result<Answered, Refusal> {
        judged(alloc, file, answer)
    }
}

// The verdict on an answer.
fn judged(alloc: Global, file: &SettingFile, answer: &CheckedAnswer) -> Result<Answered, Refusal>
    requires kind { has_no_groups file.now ≡ true }
    requires fits { IsCheckable file.now answer.now }
    ensures checked { IfOk result (λ answered. IsChecked file.now answer.now (said answered)) }
    ensures status { IfOk result (λ answered. IsCheckStatus answered.status) }
    ensures refused { IfErr result (λ e. (e ≡ refusal.Memory) ⊎ (IsChecked file.now answer.now (refused e) × (status_of e ≡ 66))) }
{
    match answer {
        CheckedAnswer::Best(answer) => Ok(best_checked(alloc, file, answer)?),
        CheckedAnswer::Fair(answer) => Ok(fair_check::checked(alloc, file, answer)?),
        CheckedAnswer::Required(answer) => Ok(require_check::checked(alloc, file, answer)?),
        CheckedAnswer::Asym(text) => asym_check::checked(alloc, file, text.bytes()),
        CheckedAnswer::Determ(text) => {
            Ok(determ_check::checked(alloc, general(file), text.bytes())?)
        }
    }
}

// The verdict on an answer about the best mechanism, or the best auction.
fn best_checked(alloc: Global, file: &SettingFile, answer: &Answer) -> Result<Answered, NoMemory>
    requires kind { has_no_groups file.now ≡ true }
    requires answer { WhereGeneral (λ s. IsAnswerTo s answer.now) file.now }
    requires auction_answer { WhereAuction (λ a. IsAuctionAnswer a answer.now) file.now }
    ensures checked { IfOk result (λ answered. IsCheck file.now answer.now (said answered)) }
    ensures status { IfOk result (λ answered. IsCheckStatus answered.status) }
{
    let verdict = check(alloc, file, answer)?;
    tell_verdict(alloc, file, verdict)
}
