//! Whether what an answer claims of the best mechanism of a sale is so.
ghost use Rattle.std.specs.Prelude.{◌≡◌, ◌⊎◌, IfErr, IfOk};
ghost use Rattle.md_setting.specs.ByKind.{IsGeneral, WhereGeneral};
ghost use Rattle.md_asym_sale.specs.Sale.{IsSale};
ghost use Rattle.md_asym.specs.AnswerTo.{IsSaleAnswer};
ghost use Rattle.md_cli_driver.specs.declared.refusal.Refusal.TheVariants as refusal;
ghost use Rattle.md_cli_driver.specs.Refused.{refused, status_of};
ghost use Rattle.md_cli_driver.specs.Saying.{said};
ghost use Rattle.md_cli_judge.specs.AsymChecking.{IsAsymCheck, IsAsymCheckedOf};
ghost use Rattle.md_cli_judge.specs.Verdicts.{IsCheckStatus};

use crate::verdict_text::tell_verdict;
use md_asym::{SaleAnswer, check_asym, read_asym};
use md_asym_sale::is_sale;
use md_cli_driver::{Answered, Refusal, general};
use md_num::NoMemory;
use md_parts::AnswerRefusal;
use md_setting::SettingFile;
use std::alloc::Global;

/// The verdict on the answer that a text says of a sale. Of a setting that is none it is refused as one of another kind.
pub(crate) fn checked(alloc: Global, file: &SettingFile, bytes: &[u8]) -> Result<Answered, Refusal>
    requires { IsGeneral file.now }
    ensures checked { IfOk result (λ answered. IsAsymCheck file.now bytes.now (said answered)) }
    ensures status { IfOk result (λ answered. IsCheckStatus answered.status) }
    ensures refused { IfErr result (λ e. (e ≡ refusal.Memory) ⊎ (IsAsymCheck file.now bytes.now (refused e) × (status_of e ≡ 66))) }
{
    let setting = general(file);
    if !is_sale(setting) {
        return Err(Refusal::Answer(AnswerRefusal::Cell(1, 3)));
    }
    let answer = read_asym(alloc, bytes, setting)?;
    Ok(sale_checked(alloc, file, &answer)?)
}

// The verdict on an answer about a sale.
fn sale_checked(
    alloc: Global,
    file: &SettingFile,
    answer: &SaleAnswer,
) -> Result<Answered, NoMemory>
    requires general { IsGeneral file.now }
    requires sale { WhereGeneral IsSale file.now }
    requires answer { WhereGeneral (λ s. IsSaleAnswer s answer.now) file.now }
    ensures checked { IfOk result (λ answered. WhereGeneral (λ s. IsAsymCheckedOf s answer.now (said answered)) file.now) }
    ensures status { IfOk result (λ answered. IsCheckStatus answered.status) }
{
    let verdict = check_asym(alloc, general(file), answer)?;
    tell_verdict(alloc, file, verdict)
}
