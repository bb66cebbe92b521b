//! The commands `find` and `findfair`: the best or the fairest mechanism of a setting, found on the stated paths or off them.
ghost use Rattle.std.specs.Prelude.{◌≡◌, ◌≢◌, Ok, Err, IfOk, MatchResult};
ghost use Rattle.md_setting.specs.ByKind.{IsGeneral, WhereGeneral};
ghost use Rattle.md_setting.specs.Rows.{column_count, row_count};
ghost use Rattle.md_find_basis.specs.Basis.{basis_of};
ghost use Rattle.md_question.specs.Best.{best_question};
ghost use Rattle.md_question.specs.Certified.{IsCertifiedFinding};
ghost use Rattle.md_cli_best.specs.Finding.{IsFind, IsFindFair, IsFindStatus, basis_in};
ghost use Rattle.md_cli_driver.specs.Reading.{is_general};
ghost use Rattle.md_cli_driver.specs.Saying.{said, undecided_text};

use crate::fair::status;
use md_answer::write_answer;
use md_cli_driver::{Answered, OneFile, Refusal, TwoFiles, UNDECIDED, general, is_general};
use md_fair::{FairAnswer, write_fair};
use md_fair_solve::find_fair;
use md_find_basis::{Basis, read_basis};
use md_num::NoMemory;
use md_parts::AnswerRefusal;
use md_question::Finding;
use md_question_solve::find_question;
use md_rows::rows_of;
use md_setting::{Setting, SettingFile};
use md_simplex::SimplexError;
use md_solve::answer_of;
use std::alloc::Global;

/// `find SETTING`
#[derive(Drop)]
pub struct Find;

impl OneFile for Find {
    ghost is_served = { is_general };

    ghost says = { λ _. IsFind };

    ghost own = { IsFindStatus };

    fn serves(&self, file: &SettingFile) -> bool {
        is_general(file)
    }

    fn answer(&self, alloc: Global, file: &SettingFile) -> Result<Answered, Refusal> {
        Ok(best(alloc, file, None)?)
    }
}

/// `find SETTING --from BASIS`
#[derive(Drop)]
pub struct FindFrom;

impl TwoFiles for FindFrom {
    type Second = Basis;

    ghost is_served = { is_general };

    ghost reading = { λ _. basis_in };

    ghost fits = { λ _ _ _. Unit {0} };

    ghost says = { λ _ file _. IsFind file };

    ghost own = { IsFindStatus };

    fn serves(&self, file: &SettingFile) -> bool {
        is_general(file)
    }

    fn second(&self, alloc: Global, file: &SettingFile, bytes: &[u8]) -> Result<Basis, Refusal> {
        Ok(basis_for(alloc, general(file), bytes)?)
    }

    fn answer(
        &self,
        alloc: Global,
        file: &SettingFile,
        basis: &Basis,
    ) -> Result<Answered, Refusal> {
        Ok(best(alloc, file, Some(basis))?)
    }
}

/// `findfair SETTING`
#[derive(Drop)]
pub struct FindFair;

impl OneFile for FindFair {
    ghost is_served = { is_general };

    ghost says = { λ _. IsFindFair };

    ghost own = { IsFindStatus };

    fn serves(&self, file: &SettingFile) -> bool {
        is_general(file)
    }

    fn answer(&self, alloc: Global, file: &SettingFile) -> Result<Answered, Refusal> {
        Ok(fairest(alloc, file)?)
    }
}

// The basis that a file lists of the program of a setting.
fn basis_for(alloc: Global, setting: &Setting, bytes: &[u8]) -> Result<Basis, AnswerRefusal>
    ensures { MatchResult result
        (λ basis. basis_of (column_count setting.now) (row_count setting.now) bytes.now ≡ Ok basis)
        (λ refusal. refusal ≢ AnswerRefusal.Memory → basis_of (column_count setting.now) (row_count setting.now) bytes.now ≡ Err refusal) }
{
    let lp = rows_of(alloc, setting)?;
    read_basis(alloc, bytes, lp.columns(), setting.rows())
}

// The best mechanism of a setting that is found, from a basis where there is one, or that none was.
fn best(alloc: Global, file: &SettingFile, basis: Option<&Basis>) -> Result<Answered, NoMemory>
    requires { IsGeneral file.now }
    ensures find { IfOk result (λ answered. IsFind file.now (said answered)) }
    ensures status { IfOk result (λ answered. IsFindStatus answered.status) }
{
    match find_question(alloc, general(file), basis) {
        Ok(finding) => best_found(alloc, file, finding),
        Err(SimplexError::TooWide { .. }) => not_found(alloc),
        Err(SimplexError::Memory) => Err(NoMemory),
    }
}

// The best mechanism that was found of a setting, as `solve` tells it.
fn best_found(alloc: Global, file: &SettingFile, finding: Finding) -> Result<Answered, NoMemory>
    requires general { IsGeneral file.now }
    requires certified { WhereGeneral (λ s. IsCertifiedFinding (best_question s) finding) file.now }
    ensures find { IfOk result (λ answered. IsFind file.now (said answered)) }
    ensures status { IfOk result (λ answered. IsFindStatus answered.status) }
{
    let _shaped = general(file).space();
    let status = status(&finding);
    let answer = answer_of(finding);
    Ok(Answered {
        status,
        text: write_answer(alloc, file, &answer)?,
    })
}

// The fairest mechanism of a setting that is found, or that none was.
fn fairest(alloc: Global, file: &SettingFile) -> Result<Answered, NoMemory>
    requires { IsGeneral file.now }
    ensures find { IfOk result (λ answered. IsFindFair file.now (said answered)) }
    ensures status { IfOk result (λ answered. IsFindStatus answered.status) }
{
    let setting = general(file);
    match find_fair(alloc, setting) {
        Ok(finding) => Ok(Answered {
            status: status(&finding),
            text: write_fair(alloc, setting, &FairAnswer::Found(finding))?,
        }),
        Err(SimplexError::TooWide { .. }) => not_found(alloc),
        Err(SimplexError::Memory) => Err(NoMemory),
    }
}

/// That nothing was found.
pub(crate) fn not_found(alloc: Global) -> Result<Answered, NoMemory>
    ensures status { IfOk result (λ answered. answered.status ≡ 22) }
    ensures text { IfOk result (λ answered. answered.text.items ≡ undecided_text) }
{
    Ok(Answered {
        status: UNDECIDED,
        text: b"undecided\n".to_vec(alloc)?,
    })
}
