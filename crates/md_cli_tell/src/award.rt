//! The command `award`: what each bidder has of some units at a profile of reports, and who wins at a draw.
ghost use Rattle.std.specs.Prelude.{◌≡◌, ◌⊎◌, true, length, IfOk, IfErr};
ghost use Rattle.md_unit_tables.specs.Numbers.{IsUnitNumber};
ghost use Rattle.md_cli_driver.specs.declared.refusal.Refusal.TheVariants as refusal;
ghost use Rattle.md_cli_driver.specs.Reading.{is_auction};
ghost use Rattle.md_cli_driver.specs.Refused.{refused, status_of};
ghost use Rattle.md_cli_driver.specs.Saying.{said};
ghost use Rattle.md_cli_tell.specs.AwardTexts.{text_of_award};
ghost use Rattle.md_cli_tell.specs.Awarding.{IsAwardOf, IsAwardStatus, award_refused};

use crate::award_text::award_text;
use crate::profile::reports_of;
use md_cli_driver::{Answered, DONE, OneFile, Refusal, auction, is_auction};
use md_num::NoMemory;
use md_setting::{Auction, SettingFile};
use md_threshold::{Award, AwardRefusal, award_units};
use md_unit_tables::UnitNumber;
use std::alloc::Global;

/// `award SETTING NUMBER PROFILE DRAW`
#[derive(Drop)]
pub struct Awarding<'a> {
    /// How many units are sold.
    pub units: UnitNumber,
    /// The names of the reports, with commas between them.
    pub profile: &'a str,
    /// The draw.
    pub draw: i128,
}

impl OneFile for Awarding<'_> {
    ghost is_served = { is_auction };

    ghost says = { λ command. IsAwardOf command.units command.profile.now command.draw };

    ghost own = { IsAwardStatus };

    fn serves(&self, file: &SettingFile) -> bool {
        is_auction(file)
    }

    fn answer(&self, alloc: Global, file: &SettingFile) -> Result<Answered, Refusal> {
        awarded(alloc, file, self.units.get(), self.profile, self.draw)
    }
}

// What bidders have at a profile and a draw, or why there is nothing.
fn awarded(
    alloc: Global,
    file: &SettingFile,
    units: u32,
    profile: &str,
    draw: i128,
) -> Result<Answered, Refusal>
    requires units { IsUnitNumber units }
    requires file { is_auction file.now ≡ true }
    ensures awarded { IfOk result (λ answered. IsAwardOf units profile.now draw file.now (said answered)) }
    ensures status { IfOk result (λ answered. answered.status ≡ 0) }
    ensures refused { IfErr result (λ e. (e ≡ refusal.Memory) ⊎ (IsAwardOf units profile.now draw file.now (refused e) × (status_of e ≡ 67))) }
{
    let auction = auction(file);
    let Some(reports) = reports_of(alloc, file, profile)? else {
        return Err(Refusal::Profile);
    };
    match award_units(alloc, auction, units, &reports, draw) {
        Ok(award) => Ok(told(alloc, auction, &award)?),
        Err(refusal) => Err(refusal_by(refusal)),
    }
}

// What is said where nothing is awarded.
fn refusal_by(refusal: AwardRefusal) -> Refusal
    ensures { result ≡ award_refused refusal }
{
    match refusal {
        AwardRefusal::Draw(_) => Refusal::Draw,
        AwardRefusal::Memory => Refusal::Memory,
    }
}

// The records of what bidders have.
fn told(alloc: Global, auction: &Auction, award: &Award) -> Result<Answered, NoMemory>
    requires { length award.now.shares.items ≡ auction.now.bidders }
    ensures text { IfOk result (λ answered. answered.text.items ≡ text_of_award award.now.shares.items) }
    ensures status { IfOk result (λ answered. answered.status ≡ 0) }
{
    Ok(Answered {
        status: DONE,
        text: award_text(alloc, auction.bidders(), &award.shares)?,
    })
}
