//! The command `asym`: the best mechanism of a sale of one item to bidders who differ.
ghost use Rattle.std.specs.Prelude.{◌≡◌, ◌⊎◌, IfErr, IfOk};
ghost use Rattle.md_asym_sale.specs.Sale.{IsSale};
ghost use Rattle.md_cli_driver.specs.declared.refusal.Refusal.TheVariants as refusal;
ghost use Rattle.md_cli_driver.specs.Reading.{is_general};
ghost use Rattle.md_cli_driver.specs.Refused.{refused, status_of};
ghost use Rattle.md_cli_driver.specs.Saying.{said};
ghost use Rattle.md_cli_sell.specs.Selling.{IsAsym, IsAsymOf, IsAsymStatus, IsSelling};

use md_asym::{SaleAnswer, write_asym};
use md_asym_sale::is_sale;
use md_asym_solve::{AsymError, solve_asym};
use md_cli_driver::{Answered, DONE, OneFile, Refusal, TOO_WIDE, general, is_general};
use md_num::{NoMemory, Width};
use md_setting::{Setting, SettingFile};
use std::alloc::Global;

/// `asym SETTING [--width W]`
#[derive(Drop)]
pub struct Asym {
    /// How many bits the numbers of a basis may have.
    pub width: Width,
}

impl OneFile for Asym {
    ghost is_served = { is_general };

    ghost says = { λ command. IsAsym command.width };

    ghost own = { IsAsymStatus };

    fn serves(&self, file: &SettingFile) -> bool {
        is_general(file)
    }

    fn answer(&self, alloc: Global, file: &SettingFile) -> Result<Answered, Refusal> {
        asked(alloc, general(file), self.width)
    }
}

// The best mechanism of a setting, or that it is no sale.
fn asked(alloc: Global, setting: &Setting, width: Width) -> Result<Answered, Refusal>
    ensures said { IfOk result (λ answered. IsAsymOf width setting.now (said answered)) }
    ensures status { IfOk result (λ answered. IsAsymStatus answered.status) }
    ensures refused { IfErr result (λ e. (e ≡ refusal.Memory) ⊎ (IsAsymOf width setting.now (refused e) × (status_of e ≡ 65))) }
{
    if !is_sale(setting) {
        return Err(Refusal::NotASale);
    }
    Ok(sold(alloc, setting, width)?)
}

// The best mechanism of a sale within a width.
fn sold(alloc: Global, setting: &Setting, width: Width) -> Result<Answered, NoMemory>
    requires { IsSale setting.now }
    ensures selling { IfOk result (λ answered. IsSelling setting.now width (said answered)) }
    ensures status { IfOk result (λ answered. IsAsymStatus answered.status) }
{
    let _shaped = setting.total();
    match solve_asym(alloc, setting, width) {
        Ok(answer) => Ok(Answered {
            status: DONE,
            text: write_asym(alloc, setting, &SaleAnswer::Optimal(answer))?,
        }),
        Err(
            AsymError::TooWide {
                cuts,
                first,
                second,
            },
        ) => Ok(Answered {
            status: TOO_WIDE,
            text: write_asym(
                alloc,
                setting,
                &SaleAnswer::TooWide {
                    cuts,
                    first,
                    second,
                },
            )?,
        }),
        Err(AsymError::Memory) => Err(NoMemory),
    }
}
