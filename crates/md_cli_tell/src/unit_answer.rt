//! The answer about several units that a second file says, of which something can be told and drawn.
ghost use Rattle.std.specs.Prelude.{◌≡◌, ◌⊎◌, true, IfOk, IfErr};
ghost use Rattle.md_cli_driver.specs.declared.refusal.Refusal.TheVariants as refusal;
ghost use Rattle.md_cli_driver.specs.Reading.{Follows, is_auction};
ghost use Rattle.md_cli_driver.specs.Refused.{status_of};
ghost use Rattle.md_cli_tell.specs.UnitAnswers.{HasUnitTable, unit_table_in};

use crate::drawable::with_table;
use md_answer::{Answer, Supply, read_auction_answer};
use md_cli_driver::{Refusal, auction};
use md_setting::SettingFile;
use md_unit_tables::UnitNumber;
use std::alloc::Global;

/// An answer about so many units, which must have masses.
pub(crate) fn read_unit_table(
    alloc: Global,
    file: &SettingFile,
    units: &UnitNumber,
    bytes: &[u8],
) -> Result<Answer, Refusal>
    requires { is_auction file.now ≡ true }
    ensures follows { Follows (λ answer. answer) result (unit_table_in units.now file.now bytes.now) }
    ensures fits { IfOk result (HasUnitTable units.now file.now) }
    ensures errors { IfErr result (λ e. (e ≡ refusal.Memory) ⊎ (status_of e ≡ 66)) }
{
    let supply = Supply::Units(*units);
    with_table(read_auction_answer(alloc, bytes, auction(file), &supply)?)
}
