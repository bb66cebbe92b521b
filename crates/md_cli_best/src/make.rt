//! The command `make`: the setting that a number stands for.
ghost use Rattle.std.specs.Prelude.{◌≡◌, ◌⊎◌, ◌≤◌, ℕ, IfOk, IfErr, MatchResult};
ghost use Rattle.md_cli_driver.specs.declared.refusal.Refusal.TheVariants as refusal;
ghost use Rattle.md_cli_best.specs.Making.{IsMade, IsMake, IsMakeStatus};
ghost use Rattle.md_cli_best.specs.Numbers.{IsInRange};
ghost use Rattle.md_cli_driver.specs.Refused.{refused, status_of};
ghost use Rattle.md_cli_driver.specs.Saying.{said};

use md_cli_driver::{Answered, DONE, NoFile, Refusal};
use md_gen::make;
use md_num::NoMemory;
use md_toml::write_setting;
use std::alloc::Global;

/// The greatest number that stands for a setting.
const GREATEST_NUMBER: u32 = 999_999;

/// `make NUMBER`
#[derive(Drop)]
pub struct Make {
    /// The number that stands for a setting.
    pub number: i128,
}

impl NoFile for Make {
    ghost says = { λ command. IsMake command.number };

    ghost own = { IsMakeStatus };

    fn answer(&self, alloc: Global) -> Result<Answered, Refusal> {
        printed(alloc, self.number)
    }
}

/// A number as one that stands for a setting.
pub(crate) fn in_range(number: i128) -> Result<u32, Refusal>
    ensures { MatchResult result (IsInRange number) (λ e. (e ≡ refusal.Number) × ((n : ℕ) → ¬ IsInRange number n)) }
{
    match u32::try_from(number) {
        Ok(small) if small <= GREATEST_NUMBER => Ok(small),
        _ => Err(Refusal::Number),
    }
}

// The setting that a number stands for, or that it stands for none.
fn printed(alloc: Global, number: i128) -> Result<Answered, Refusal>
    ensures said { IfOk result (λ answered. IsMake number (said answered)) }
    ensures status { IfOk result (λ answered. answered.status ≡ 0) }
    ensures refused { IfErr result (λ e. (e ≡ refusal.Memory) ⊎ (IsMake number (refused e) × (status_of e ≡ 67))) }
{
    match in_range(number) {
        Ok(number) => Ok(made(alloc, number)?),
        Err(refusal) => Err(refusal),
    }
}

// The file of the setting that a number stands for.
fn made(alloc: Global, number: u32) -> Result<Answered, NoMemory>
    requires { number ≤ 999999 }
    ensures made { IfOk result (λ answered. IsMade number (said answered)) }
    ensures status { IfOk result (λ answered. answered.status ≡ 0) }
{
    let file = make(alloc, number)?;
    Ok(Answered {
        status: DONE,
        text: write_setting(alloc, &file)?,
    })
}
