//! Whether what an answer claims of the fairest mechanism of a setting is so.
ghost use Rattle.std.specs.Prelude.{IfOk};
ghost use Rattle.md_setting.specs.ByKind.{IsGeneral, WhereGeneral};
ghost use Rattle.md_fair.specs.FairRows.{IsFairAnswer};
ghost use Rattle.md_cli_driver.specs.Saying.{said};
ghost use Rattle.md_cli_judge.specs.FairChecking.{IsFairCheck};
ghost use Rattle.md_cli_judge.specs.Verdicts.{IsCheckStatus};

use crate::verdict_text::tell_verdict;
use md_cli_driver::{Answered, general};
use md_fair::{FairAnswer, check_fair};
use md_num::NoMemory;
use md_setting::SettingFile;
use std::alloc::Global;

/// The verdict on an answer about the fairest mechanism.
pub(crate) fn checked(
    alloc: Global,
    file: &SettingFile,
    answer: &FairAnswer,
) -> Result<Answered, NoMemory>
    requires general { IsGeneral file.now }
    requires answer { WhereGeneral (λ s. IsFairAnswer s answer.now) file.now }
    ensures checked { IfOk result (λ answered. IsFairCheck file.now answer.now (said answered)) }
    ensures status { IfOk result (λ answered. IsCheckStatus answered.status) }
{
    let verdict = check_fair(alloc, general(file), answer)?;
    tell_verdict(alloc, file, verdict)
}
