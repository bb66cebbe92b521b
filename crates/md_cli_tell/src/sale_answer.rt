//! The mechanism of the answer about a sale that a second file says.
ghost use Rattle.std.specs.Prelude.{◌≡◌, ◌⊎◌, IfOk, IfErr};
ghost use Rattle.md_setting.specs.Setting.{GeneralSetting};
ghost use Rattle.md_asym.specs.AnswerTo.{IsAnswerTo, IsSaleAnswer};
ghost use Rattle.md_cli_driver.specs.declared.refusal.Refusal.TheVariants as refusal;
ghost use Rattle.md_cli_driver.specs.Refused.{status_of};
ghost use Rattle.md_cli_tell.specs.SaleAnswers.{IsSaleRefused, IsSaleTable, sale_table};

use md_answer::AnswerRefusal;
use md_asym::{AsymAnswer, SaleAnswer, read_asym};
use md_asym_sale::is_sale;
use md_cli_driver::Refusal;
use md_setting::Setting;
use std::alloc::Global;

/// The mechanism that a text says of a sale. Where the setting is no sale, the text is refused as one of another kind.
pub(crate) fn read_sale_table(
    alloc: Global,
    setting: &Setting,
    bytes: &[u8],
) -> Result<AsymAnswer, Refusal>
    ensures table { IfOk result (IsSaleTable setting.now bytes.now) }
    ensures refused { IfErr result (λ e. (e ≡ refusal.Memory) ⊎ (IsSaleRefused setting.now bytes.now e × (status_of e ≡ 66))) }
{
    if !is_sale(setting) {
        return Err(Refusal::Answer(AnswerRefusal::Cell(1, 3)));
    }
    sale_table(read_asym(alloc, bytes, setting)?)
}

// The mechanism of an answer, which must have one.
fn sale_table(answer: SaleAnswer) -> Result<AsymAnswer, Refusal>
    ensures table { result ≡ sale_table answer }
    ensures fits { (s : GeneralSetting) → IsSaleAnswer s answer → IfOk result (IsAnswerTo s) }
{
    match answer {
        SaleAnswer::Optimal(answer) => Ok(answer),
        SaleAnswer::TooWide {
            cuts: _,
            first: _,
            second: _,
        } => Err(Refusal::NoTable),
    }
}
