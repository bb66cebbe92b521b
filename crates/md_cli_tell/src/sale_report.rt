//! What is told of an answer about a sale.
ghost use Rattle.std.specs.Prelude.{◌≡◌, ◌⊎◌, IfOk, IfErr};
ghost use Rattle.md_asym_sale.specs.Sale.{IsSale};
ghost use Rattle.md_asym.specs.AnswerTo.{IsAnswerTo};
ghost use Rattle.md_cli_driver.specs.declared.refusal.Refusal.TheVariants as refusal;
ghost use Rattle.md_cli_driver.specs.Refused.{refused, status_of};
ghost use Rattle.md_cli_driver.specs.Saying.{said};
ghost use Rattle.md_cli_tell.specs.SaleReporting.{IsOtherReporting, IsSaleText};

use crate::sale_answer::read_sale_table;
use md_asym::AsymAnswer;
use md_cli_driver::{AnswerText, Answered, DONE, Refusal};
use md_num::NoMemory;
use md_sale_report::{SaleReport, sale_report_text};
use md_setting::Setting;
use std::alloc::Global;

/// What is told of a text about a general setting that names another kind of answer: it must be about a sale.
pub(crate) fn tell_other(
    alloc: Global,
    setting: &Setting,
    text: &AnswerText,
) -> Result<Answered, Refusal>
    ensures told { IfOk result (λ answered. IsOtherReporting setting.now text.now (said answered)) }
    ensures status { IfOk result (λ answered. answered.status ≡ 0) }
    ensures refused { IfErr result (λ e. (e ≡ refusal.Memory) ⊎ (IsOtherReporting setting.now text.now (refused e) × (status_of e ≡ 66))) }
{
    let answer = read_sale_table(alloc, setting, text.bytes())?;
    Ok(Answered {
        status: DONE,
        text: sale_text(alloc, setting, &answer)?,
    })
}

// The records about the odds and payments of an answer, with its cuts.
fn sale_text(alloc: Global, setting: &Setting, answer: &AsymAnswer) -> Result<Vec<u8>, NoMemory>
    requires sale { IsSale setting.now }
    requires fits { IsAnswerTo setting.now answer.now }
    ensures { IfOk result (λ text. IsSaleText setting.now answer.now text.items) }
{
    let report = SaleReport::new(alloc, setting, &answer.interim, &answer.cuts)?;
    let text = sale_report_text(alloc, setting, &report)?;
    Ok(text)
}
