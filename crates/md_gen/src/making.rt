//! The setting file that a number stands for.
ghost use Rattle.std.specs.Prelude.{◌≤◌, IfOk};
ghost use Rattle.md_gen.specs.Generated.{IsGenerated};

use crate::auction::auction;
use crate::general::setting;
use md_num::NoMemory;
use md_setting::SettingFile;
use std::alloc::Global;

/// The setting file that a number stands for: an auction where the number is odd, a general setting where it is even.
pub fn make(alloc: Global, number: u32) -> Result<SettingFile, NoMemory>
    requires { number ≤ 999999 }
    ensures { IfOk result (IsGenerated number) }
{
    if number % 2 == 1 {
        return Ok(SettingFile::Auction(auction(alloc, number)?));
    }
    Ok(SettingFile::General(setting(alloc, number)?))
}
