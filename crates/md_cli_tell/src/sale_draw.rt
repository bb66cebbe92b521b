//! Who gets the item of a sale by an answer about it, at a profile of reports.
ghost use Rattle.std.specs.Prelude.{◌≡◌, ◌⊎◌, IfOk, IfErr};
ghost use Rattle.md_setting.specs.ByKind.{IsGeneral, WhereGeneral};
ghost use Rattle.md_setting.specs.declared.file.SettingFile.TheVariants as files;
ghost use Rattle.md_asym_sale.specs.Sale.{IsSale};
ghost use Rattle.md_asym.specs.AnswerTo.{IsAnswerTo};
ghost use Rattle.md_cli_driver.specs.declared.refusal.Refusal.TheVariants as refusal;
ghost use Rattle.md_cli_driver.specs.Refused.{refused, status_of};
ghost use Rattle.md_cli_driver.specs.Saying.{said};
ghost use Rattle.md_cli_tell.specs.SaleDrawing.{IsOtherDrawing, IsSaleDrawing};

use crate::draw::{refusal_by, told};
use crate::profile::reports_of;
use crate::sale_answer::read_sale_table;
use md_asym::AsymAnswer;
use md_cli_driver::{AnswerText, Answered, Refusal, general};
use md_run::draw_sale;
use md_setting::{Setting, SettingFile};
use std::alloc::Global;

/// What two draws give of a text about a general setting that names another kind of answer: it must be about a sale.
pub(crate) fn draw_other(
    alloc: Global,
    file: &SettingFile,
    text: &AnswerText,
    profile: &str,
    first: i128,
    second: i128,
) -> Result<Answered, Refusal>
    requires { IsGeneral file.now }
    ensures drawn { IfOk result (λ answered. WhereGeneral (λ s. IsOtherDrawing profile.now first second s text.now (said answered)) file.now) }
    ensures status { IfOk result (λ answered. answered.status ≡ 0) }
    ensures refused { IfErr result (λ e. (e ≡ refusal.Memory) ⊎ (WhereGeneral (λ s. IsOtherDrawing profile.now first second s text.now (refused e)) file.now × ((status_of e ≡ 67) ⊎ (status_of e ≡ 66)))) }
{
    let setting = general(file);
    let answer = read_sale_table(alloc, setting, text.bytes())?;
    drawn(alloc, file, setting, &answer, profile, first, second)
}

// Who gets the item at the profile, or why nothing is drawn. The setting is that of the file.
fn drawn(
    alloc: Global,
    file: &SettingFile,
    setting: &Setting,
    answer: &AsymAnswer,
    profile: &str,
    first: i128,
    second: i128,
) -> Result<Answered, Refusal>
    requires file { file.now ≡ files.General setting.now }
    requires sale { IsSale setting.now }
    requires fits { IsAnswerTo setting.now answer.now }
    ensures drawn { IfOk result (λ answered. IsSaleDrawing profile.now first second setting.now answer.now (said answered)) }
    ensures status { IfOk result (λ answered. answered.status ≡ 0) }
    ensures refused { IfErr result (λ e. (e ≡ refusal.Memory) ⊎ (IsSaleDrawing profile.now first second setting.now answer.now (refused e) × (status_of e ≡ 67))) }
{
    let Some(reports) = reports_of(alloc, file, profile)? else {
        return Err(Refusal::Profile);
    };
    match draw_sale(
        alloc,
        setting,
        &answer.interim,
        &answer.masses,
        &reports,
        first,
        second,
    ) {
        Ok(drawn) => Ok(told(alloc, file, &drawn)?),
        Err(refusal) => Err(refusal_by(refusal)),
    }
}
