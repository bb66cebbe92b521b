//! The command `audit`: whether a mechanism meets all conditions of a setting, and those of the designer that its answer names.
ghost use Rattle.std.specs.Prelude.{◌≡◌, ◌<◌, length, slice_get, IfOk};
ghost use Rattle.std.specs.Option.{ForSome};
ghost use Rattle.md_setting.specs.ByKind.{WhereGeneral};
ghost use Rattle.md_mech.specs.Admissible.{IsAdmissible};
ghost use Rattle.md_mech.specs.RowName.{name_of};
ghost use Rattle.md_mech.specs.Rows.{conditions_of};
ghost use Rattle.md_mechanism_text.specs.Proposals.{IsProposedFor};
ghost use Rattle.md_cli_judge.specs.Auditing.{IsAdmissibleVerdict, IsAudit, IsAuditStatus, IsVerdict, broken_text, proposal_in, proposal_or_no_table, unmet_text};
ghost use Rattle.md_cli_driver.specs.Reading.{is_general};
ghost use Rattle.md_cli_driver.specs.Saying.{said};

use md_cli_driver::{Answered, DONE, REJECTED, Refusal, TwoFiles, general, is_general};
use md_mech::{Broken, audit, row_name};
use md_mechanism_text::{Proposal, read_mechanism_text};
use md_num::{NoMemory, write_whole};
use md_question::Unmet;
use md_require::first_unmet;
use md_setting::{Setting, SettingFile};
use std::alloc::Global;

/// `audit SETTING ANSWER`
#[derive(Drop)]
pub struct Audit;

// Both sides of a condition that is broken.
#[derive(Clone, Copy)]
struct Sides {
    left: i128,
    right: i128,
}

impl TwoFiles for Audit {
    type Second = Proposal;

    ghost is_served = { is_general };

    ghost reading = { λ _. proposal_in };

    ghost fits = { λ _ file proposal. WhereGeneral (λ s. IsProposedFor s proposal) file };

    ghost says = { λ _. IsAudit };

    ghost own = { IsAuditStatus };

    fn serves(&self, file: &SettingFile) -> bool {
        is_general(file)
    }

    fn second(&self, alloc: Global, file: &SettingFile, bytes: &[u8]) -> Result<Proposal, Refusal> {
        given(read_mechanism_text(alloc, bytes, file)?)
    }

    fn answer(
        &self,
        alloc: Global,
        file: &SettingFile,
        proposal: &Proposal,
    ) -> Result<Answered, Refusal> {
        Ok(verdict(alloc, general(file), proposal)?)
    }
}

// The mechanism of an answer, which must have one.
fn given(found: Option<Proposal>) -> Result<Proposal, Refusal>
    ensures { result ≡ proposal_or_no_table found }
{
    match found {
        Some(proposal) => Ok(proposal),
        None => Err(Refusal::NoTable),
    }
}

// The verdict on a mechanism.
fn verdict(alloc: Global, setting: &Setting, proposal: &Proposal) -> Result<Answered, NoMemory>
    requires { IsProposedFor setting.now proposal.now }
    ensures verdict { IfOk result (λ answered. IsVerdict setting.now proposal.now (said answered)) }
    ensures status { IfOk result (λ answered. IsAuditStatus answered.status) }
{
    match audit(setting, proposal.mechanism()) {
        None => admissible_verdict(alloc, setting, proposal),
        Some(broken) => Ok(Answered {
            status: REJECTED,
            text: row_record(alloc, setting, broken)?,
        }),
    }
}

// The verdict on a mechanism that the setting admits: whether it meets the conditions of the designer.
fn admissible_verdict(
    alloc: Global,
    setting: &Setting,
    proposal: &Proposal,
) -> Result<Answered, NoMemory>
    requires proposed { IsProposedFor setting.now proposal.now }
    requires admissible { IsAdmissible setting.now (proposal.now).mechanism }
    ensures verdict { IfOk result (λ answered. IsAdmissibleVerdict setting.now proposal.now (said answered)) }
    ensures status { IfOk result (λ answered. IsAuditStatus answered.status) }
{
    match first_unmet(setting, proposal.conditions(), proposal.mechanism()) {
        None => Ok(Answered {
            status: DONE,
            text: b"admissible\n".to_vec(alloc)?,
        }),
        Some(unmet) => Ok(Answered {
            status: REJECTED,
            text: unmet_record(alloc, unmet)?,
        }),
    }
}

// The record of a row of the setting that is broken: its name and both sides.
fn row_record(alloc: Global, setting: &Setting, broken: Broken) -> Result<Vec<u8>, NoMemory>
    requires { broken.row < length (conditions_of setting.now) }
    ensures { IfOk result (λ text. ForSome (slice_get (conditions_of setting.now) broken.row) (λ r. text.items ≡ broken_text (name_of setting.now r) broken.left broken.right)) }
{
    let name = row_name(alloc, setting, broken.row)?;
    let sides = Sides {
        left: broken.left,
        right: broken.right,
    };
    broken_record(alloc, &name, sides)
}

// The record of a condition of the designer that is not met: its number and both sides.
fn unmet_record(alloc: Global, unmet: Unmet) -> Result<Vec<u8>, NoMemory>
    ensures { IfOk result (λ text. text.items ≡ unmet_text unmet) }
{
    let mut name = b"condition/".to_vec(alloc)?;
    write_whole(i128::from(unmet.condition), &mut name)?;
    let sides = Sides {
        left: unmet.left,
        right: unmet.right,
    };
    broken_record(alloc, &name, sides)
}

// The record of a condition that is broken: its name and both sides.
fn broken_record(alloc: Global, name: &[u8], sides: Sides) -> Result<Vec<u8>, NoMemory>
    ensures { IfOk result (λ text. text.items ≡ broken_text name.now sides.left sides.right) }
{
    let mut text = b"broken,".to_vec(alloc)?;
    text.extend_from_slice(name)?;
    text.push(b',')?;
    write_whole(sides.left, &mut text)?;
    text.push(b',')?;
    write_whole(sides.right, &mut text)?;
    text.push(b'\n')?;
    Ok(text)
}
