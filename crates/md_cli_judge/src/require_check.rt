//! Whether what an answer claims of the best mechanism under conditions of the designer is so.
ghost use Rattle.std.specs.Prelude.{◌≡◌, IfOk};
ghost use Rattle.md_setting.specs.ByKind.{IsGeneral, WhereGeneral};
ghost use Rattle.md_mech.specs.declared.broken.Broken.{Broken};
ghost use Rattle.md_question_check.specs.declared.verdict.Reject.TheVariants.{Audit};
ghost use Rattle.md_require.specs.declared.required_verdict.RequiredVerdict.TheVariants.{Rejected};
ghost use Rattle.md_require_text.specs.Told.{IsRequiredAnswer};
ghost use Rattle.md_cli_driver.specs.Saying.{said};
ghost use Rattle.md_cli_judge.specs.RequireChecking.{IsRequireCheck, TellsRequiredVerdict, shadow_record};
ghost use Rattle.md_cli_judge.specs.Verdicts.{IsBrokenRow, IsCheckStatus};

use crate::records::{record_text, rejected_by};
use crate::verdict_text::tell_verdict;
use md_cli_driver::{Answered, REJECTED, general};
use md_num::{Frac, NoMemory};
use md_question_check::Verdict;
use md_records::Row;
use md_require::{RequiredVerdict, check_told};
use md_require_text::RequiredAnswer;
use md_setting::SettingFile;
use std::alloc::Global;

/// The verdict on an answer about the best mechanism under conditions of the designer.
pub(crate) fn checked(
    alloc: Global,
    file: &SettingFile,
    answer: &RequiredAnswer,
) -> Result<Answered, NoMemory>
    requires general { IsGeneral file.now }
    requires answer { WhereGeneral (λ s. IsRequiredAnswer s answer.now) file.now }
    ensures checked { IfOk result (λ answered. IsRequireCheck file.now answer.now (said answered)) }
    ensures status { IfOk result (λ answered. IsCheckStatus answered.status) }
{
    let verdict = check_told(
        alloc,
        general(file),
        answer.conditions(),
        answer.finding(),
        answer.shadows(),
    )?;
    tell_required(alloc, file, verdict)
}

// What is said of a verdict.
fn tell_required(
    alloc: Global,
    file: &SettingFile,
    verdict: RequiredVerdict,
) -> Result<Answered, NoMemory>
    requires { (broken : Broken) → verdict ≡ Rejected (Audit broken) → IsBrokenRow file.now broken }
    ensures told { IfOk result (λ answered. TellsRequiredVerdict file.now verdict (said answered)) }
    ensures status { IfOk result (λ answered. IsCheckStatus answered.status) }
{
    match verdict {
        RequiredVerdict::Valid => tell_verdict(alloc, file, Verdict::Valid),
        RequiredVerdict::Rejected { reject } => {
            tell_verdict(alloc, file, Verdict::Rejected(reject))
        }
        RequiredVerdict::Shadow { index, right } => {
            let record = shadow_record(alloc, index, right)?;
            Ok(Answered {
                status: REJECTED,
                text: record_text(alloc, record)?,
            })
        }
    }
}

// The record of a shadow that is told otherwise than it is right.
fn shadow_record(alloc: Global, index: u32, right: Option<Frac>) -> Result<Row, NoMemory>
    ensures { IfOk result (λ fields. fields ≡ shadow_record index right) }
{
    let record = rejected_by(alloc, b"18")?.with_number(i128::from(index))?;
    match right {
        Some(right) => record.with_number(right.num)?.with_number(right.den),
        None => Ok(record),
    }
}
