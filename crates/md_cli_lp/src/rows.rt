//! The command `rows`: the linear program of a setting.
ghost use Rattle.std.specs.Prelude.{◌≡◌, IfOk, true};
ghost use Rattle.md_setting.specs.ByKind.{has_no_groups};
ghost use Rattle.md_cli_lp.specs.Listing.{IsListingOf, IsRows, IsRowsStatus};
ghost use Rattle.md_cli_driver.specs.Saying.{said};

use crate::listing::list_program;
use crate::reduced::list_reduced;
use md_cli_driver::{Answered, DONE, OneFile, Refusal, has_no_groups};
use md_num::NoMemory;
use md_setting::SettingFile;
use std::alloc::Global;

/// `rows SETTING`
#[derive(Drop)]
pub struct Rows;

impl OneFile for Rows {
    ghost is_served = { has_no_groups };

    ghost says = { λ _. IsRows };

    ghost own = { IsRowsStatus };

    fn serves(&self, file: &SettingFile) -> bool {
        has_no_groups(file)
    }

    fn answer(&self, alloc: Global, file: &SettingFile) -> Result<Answered, Refusal> {
        Ok(listed(alloc, file)?)
    }
}

// The linear program of a setting.
fn listed(alloc: Global, file: &SettingFile) -> Result<Answered, NoMemory>
    requires { has_no_groups file.now ≡ true }
    ensures rows { IfOk result (λ answered. IsRows file.now (said answered)) }
    ensures status { IfOk result (λ answered. answered.status ≡ 0) }
{
    Ok(Answered {
        status: DONE,
        text: listing(alloc, file)?,
    })
}

// Its text, by the kind of the setting.
fn listing(alloc: Global, file: &SettingFile) -> Result<Vec<u8>, NoMemory>
    requires { has_no_groups file.now ≡ true }
    ensures { IfOk result (λ text. IsListingOf file.now text.items) }
{
    match file {
        SettingFile::General(setting) => list_program(alloc, setting),
        SettingFile::Auction(auction) => list_reduced(alloc, auction),
        SettingFile::Bidders(_) => unreachable!(),
    }
}
