//! The command `determcheck`: whether what an answer claims of the deterministic mechanisms of a setting is so.
ghost use Rattle.std.specs.Prelude.{◌≡◌, ◌<◌, ◌∷◌, [], IfOk, length, codes};
ghost use Rattle.md_num.specs.WholeText.{text_of};
ghost use Rattle.md_setting.specs.ByKind.{WhereGeneral};
ghost use Rattle.md_mech.specs.declared.broken.Broken.{Broken};
ghost use Rattle.md_mech.specs.Rows.{conditions_of};
ghost use Rattle.md_tree.specs.declared.verdict.DetReject.TheVariants as rejects;
ghost use Rattle.md_tree.specs.Texts.{IsCheckedText, IsReadText};
ghost use Rattle.md_cli_driver.specs.Reading.{is_general};
ghost use Rattle.md_cli_driver.specs.Saying.{said};
ghost use Rattle.md_cli_judge.specs.DetermChecking.{IsDetermCheck, IsDetermCheckedText, determ_text_in};
ghost use Rattle.md_cli_judge.specs.DetermVerdicts.{IsRejected};
ghost use Rattle.md_cli_judge.specs.Verdicts.{IsCheckStatus, rejected};

use crate::records::{record_text, rejected_by};
use md_cli_driver::{
    AnswerText, Answered, DONE, REJECTED, Refusal, TwoFiles, UNDECIDED, general, is_general,
};
use md_mech::{Broken, row_name};
use md_num::NoMemory;
use md_records::Row;
use md_setting::{Setting, SettingFile};
use md_tree::{AnswerRefusal, DetReject, DetVerdict, check_text, read_text};
use std::alloc::Global;

/// `determcheck SETTING ANSWER`
#[derive(Drop)]
pub struct DetermCheck;

impl TwoFiles for DetermCheck {
    type Second = AnswerText;

    ghost is_served = { is_general };

    ghost reading = { λ _. determ_text_in };

    ghost fits = { λ _ file bytes. WhereGeneral (λ s. IsReadText s bytes) file };

    ghost says = { λ _. IsDetermCheck };

    ghost own = { IsCheckStatus };

    fn serves(&self, file: &SettingFile) -> bool {
        is_general(file)
    }

    fn second(
        &self,
        alloc: Global,
        file: &SettingFile,
        bytes: &[u8],
    ) -> Result<AnswerText, Refusal> {
        read_text(alloc, general(file), bytes)?;
        Ok(AnswerText::copy(alloc, bytes)?)
    }

    fn answer(
        &self,
        alloc: Global,
        file: &SettingFile,
        text: &AnswerText,
    ) -> Result<Answered, Refusal> {
        Ok(checked(alloc, general(file), text.bytes())?)
    }
}

/// The verdict on the answer that a text says.
#[tactic(auto, using(crate::proofs::CheckedTexts::told_text))]
pub(crate) fn checked(alloc: Global, setting: &Setting, bytes: &[u8]) -> Result<Answered, NoMemory>
    requires { IsReadText setting.now bytes.now }
    ensures checked { IfOk result (λ answered. IsDetermCheckedText setting.now bytes.now (said answered)) }
    ensures status { IfOk result (λ answered. IsCheckStatus answered.status) }
{
    match verdict(alloc, setting, bytes)? {
        DetVerdict::Valid => Ok(Answered {
            status: DONE,
            text: b"valid\n".to_vec(alloc)?,
        }),
        DetVerdict::Undecided => Ok(Answered {
            status: UNDECIDED,
            text: b"undecided\n".to_vec(alloc)?,
        }),
        DetVerdict::Rejected(reject) => {
            let record = rejected_record(alloc, setting, reject)?;
            Ok(Answered {
                status: REJECTED,
                text: record_text(alloc, record)?,
            })
        }
    }
}

// The verdict alone. The text can be read, so that nothing but want of memory is an error.
fn verdict(alloc: Global, setting: &Setting, bytes: &[u8]) -> Result<DetVerdict, NoMemory>
    requires { IsReadText setting.now bytes.now }
    ensures { IfOk result (IsCheckedText setting.now bytes.now) }
{
    match check_text(alloc, setting, bytes) {
        Ok(verdict) => Ok(verdict),
        Err(AnswerRefusal::Memory) => Err(NoMemory),
        Err(_) => unreachable!(),
    }
}

// The record of the first condition that fails.
fn rejected_record(alloc: Global, setting: &Setting, reject: DetReject) -> Result<Row, NoMemory>
    requires { (broken : Broken) → reject ≡ rejects.Audit broken → broken.row < length (conditions_of setting.now) }
    ensures { IfOk result (IsRejected setting.now reject) }
{
    match reject {
        DetReject::Lottery { rank } => rejected_by(alloc, b"11")?.with_number(i128::from(rank)),
        DetReject::Audit { broken } => broken_record(alloc, setting, broken),
        DetReject::Value { right } => rejected_by(alloc, b"13")?
            .with_number(right.num)?
            .with_number(right.den),
        DetReject::Leaf { node } => rejected_by(alloc, b"14")?.with_number(i128::from(node)),
        DetReject::Worth { node } => rejected_by(alloc, b"15")?.with_number(i128::from(node)),
        DetReject::Root => rejected_by(alloc, b"16"),
    }
}

// The record of a broken row of the setting.
fn broken_record(alloc: Global, setting: &Setting, broken: Broken) -> Result<Row, NoMemory>
    requires { broken.row < length (conditions_of setting.now) }
    ensures { IfOk result (IsRejected setting.now (rejects.Audit broken)) }
{
    let name = row_name(alloc, setting, broken.row)?;
    named_record(alloc, &name, broken)
}

// The record of a broken row with this name.
fn named_record(alloc: Global, name: &[u8], broken: Broken) -> Result<Row, NoMemory>
    ensures { IfOk result (λ fields. fields ≡ rejected (codes "12") (name.now ∷ text_of broken.left ∷ text_of broken.right ∷ [])) }
{
    rejected_by(alloc, b"12")?
        .with(name)?
        .with_number(broken.left)?
        .with_number(broken.right)
}
