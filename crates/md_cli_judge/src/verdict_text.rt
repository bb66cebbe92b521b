//! What is said of a verdict.
ghost use Rattle.std.specs.Prelude.{◌≡◌, ◌<◌, ◌∷◌, [], IfOk, length, codes};
ghost use Rattle.md_num.specs.WholeText.{text_of};
ghost use Rattle.md_setting.specs.declared.file.SettingFile.TheVariants.{General};
ghost use Rattle.md_mech.specs.declared.broken.Broken.{Broken};
ghost use Rattle.md_mech.specs.Rows.{conditions_of};
ghost use Rattle.md_question_check.specs.declared.verdict.Reject.TheVariants as rejects;
ghost use Rattle.md_question_check.specs.declared.verdict.Verdict.TheVariants.{Rejected};
ghost use Rattle.md_cli_driver.specs.Saying.{said};
ghost use Rattle.md_cli_judge.specs.Verdicts.{IsBrokenRow, IsCheckStatus, IsRejected, TellsVerdict, rejected};

use crate::records::{record_text, rejected_by};
use md_cli_driver::{Answered, DONE, REJECTED, UNDECIDED, general};
use md_mech::{Broken, row_name};
use md_num::{Frac, NoMemory};
use md_question_check::{Reject, Verdict};
use md_records::Row;
use md_setting::{Setting, SettingFile};
use std::alloc::Global;

/// What is said of a verdict on an answer about the setting or the auction of a file.
pub(crate) fn tell_verdict(
    alloc: Global,
    file: &SettingFile,
    verdict: Verdict,
) -> Result<Answered, NoMemory>
    requires { (broken : Broken) → verdict ≡ Rejected (rejects.Audit broken) → IsBrokenRow file.now broken }
    ensures told { IfOk result (λ answered. TellsVerdict file.now verdict (said answered)) }
    ensures status { IfOk result (λ answered. IsCheckStatus answered.status) }
{
    match verdict {
        Verdict::Valid => Ok(Answered {
            status: DONE,
            text: b"valid\n".to_vec(alloc)?,
        }),
        Verdict::Undecided => Ok(Answered {
            status: UNDECIDED,
            text: b"undecided\n".to_vec(alloc)?,
        }),
        Verdict::Rejected(reject) => {
            let record = rejected_record(alloc, file, reject)?;
            Ok(Answered {
                status: REJECTED,
                text: record_text(alloc, record)?,
            })
        }
    }
}

// The record of the first condition that fails.
fn rejected_record(alloc: Global, file: &SettingFile, reject: Reject) -> Result<Row, NoMemory>
    requires { (broken : Broken) → reject ≡ rejects.Audit broken → IsBrokenRow file.now broken }
    ensures { IfOk result (IsRejected file.now reject) }
{
    match reject {
        Reject::Audit { broken } => broken_record(alloc, general(file), broken),
        Reject::Value { right } => rejected_by(alloc, b"2")?
            .with_number(right.num)?
            .with_number(right.den),
        Reject::Pair { row, face, main } => rejected_by(alloc, b"3")?
            .with_number(i128::from(row))?
            .with_number(face)?
            .with_number(main),
        Reject::Column { column, face, main } => rejected_by(alloc, b"4")?
            .with_number(i128::from(column))?
            .with_number(face)?
            .with_number(main),
        Reject::FaceRight { sum } => rejected_by(alloc, b"5")?.with_number(sum),
        Reject::MainRight { bound, cost } => bound_record(alloc, bound, cost),
        Reject::RayRow { row, sum } => rejected_by(alloc, b"7")?
            .with_number(i128::from(row))?
            .with_number(sum),
        Reject::RayGain { sum } => rejected_by(alloc, b"8")?.with_number(sum),
        Reject::Masses { kind, sum, demand } => rejected_by(alloc, b"9")?
            .with_number(i128::from(kind))?
            .with_number(sum)?
            .with_number(demand),
        Reject::Reduced { row, left, right } => rejected_by(alloc, b"10")?
            .with_number(i128::from(row))?
            .with_number(left)?
            .with_number(right),
        Reject::Level { level } => rejected_by(alloc, b"11")?.with_number(level),
        Reject::Unmet { unmet } => rejected_by(alloc, b"17")?
            .with_number(i128::from(unmet.condition))?
            .with_number(unmet.left)?
            .with_number(unmet.right),
    }
}

// The record of a broken row of the setting.
fn broken_record(alloc: Global, setting: &Setting, broken: Broken) -> Result<Row, NoMemory>
    requires { broken.row < length (conditions_of setting.now) }
    ensures { IfOk result (IsRejected (General setting.now) (rejects.Audit broken)) }
{
    let name = row_name(alloc, setting, broken.row)?;
    let named = rejected_by(alloc, b"1")?.with(&name)?;
    let filled = named.with_number(broken.left)?.with_number(broken.right)?;
    Ok(filled)
}

// The record of a bound that is another number than the cost.
fn bound_record(alloc: Global, bound: Frac, cost: Frac) -> Result<Row, NoMemory>
    ensures { IfOk result (λ fields. fields ≡ rejected (codes "6") (text_of bound.num ∷ text_of bound.den ∷ text_of cost.num ∷ text_of cost.den ∷ [])) }
{
    rejected_by(alloc, b"6")?
        .with_number(bound.num)?
        .with_number(bound.den)?
        .with_number(cost.num)?
        .with_number(cost.den)
}
