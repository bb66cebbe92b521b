//! Reading the setting of a command.
ghost use Rattle.std.specs.Prelude.{◌≡◌, ◌≢◌, ◌⊎◌, ◌≤◌, ℕ, true, List, IfErr, Err};
ghost use Rattle.std.specs.Option.{ForSome};
ghost use Rattle.md_ports.specs.Faults.{Rose};
ghost use Rattle.md_setting.specs.ByKind.{IsGeneral, has_no_groups};
ghost use Rattle.md_setting.specs.declared.file.SettingFile.TheVariants as files;
ghost use Rattle.md_toml.specs.File.{setting_of};
ghost use Rattle.md_cli_driver.specs.declared.refusal.Refusal.TheVariants as refusal;
ghost use Rattle.md_cli_driver.specs.Reading.{Follows, file_said, is_auction, is_general, setting_or_refusal};
ghost use Rattle.md_cli_driver.specs.Refused.{status_of};

use crate::read::read_file;
use crate::refusal::Refusal;
use md_ports::Shelf;
use md_setting::{Auction, Setting, SettingFile};
use md_toml::{SettingRefusal, read_setting};
use std::alloc::Global;

/// The greatest length of a setting file, in bytes.
const SETTING_LIMIT: usize = 1_048_576;

// The setting that a file says.
fn setting_from(alloc: Global, bytes: &[u8]) -> Result<SettingFile, Refusal>
    ensures follows { Follows (λ file. file) result (setting_or_refusal (setting_of bytes.now)) }
    ensures errors { IfErr result (λ e. (e ≡ refusal.Memory) ⊎ (status_of e ≡ 65)) }
{
    match read_setting(alloc, bytes) {
        Ok(file) => Ok(file),
        Err(SettingRefusal::Memory) => Err(Refusal::Memory),
        Err(e) => Err(Refusal::Setting(e)),
    }
}

/// Reads the setting of a file, of whatever kind it is.
pub(crate) fn read_setting_file<F: Shelf>(
    alloc: Global,
    name: &str,
    shelf: &mut F,
) -> Result<SettingFile, Refusal>
    ensures told { ForSome (F.content shelf.old name.now) (λ all. Follows (λ file. file) result (file_said all)) }
    ensures fault { result ≡ Err refusal.ReadFault → Rose (F.faults shelf.old name.now) (F.faults shelf.new name.now) }
    ensures quiet { (n : List ℕ) → result ≢ Err refusal.ReadFault → F.faults shelf.new n ≡ F.faults shelf.old n }
    ensures stays { (n : List ℕ) → F.content shelf.new n ≡ F.content shelf.old n }
    ensures never_falls { (n : List ℕ) → F.faults shelf.old n ≤ F.faults shelf.new n }
    ensures errors { IfErr result (λ e. (e ≡ refusal.ReadFault) ⊎ ((e ≡ refusal.Memory) ⊎ (status_of e ≡ 65))) }
{
    let bytes = read_file(shelf, name, SETTING_LIMIT, Refusal::SettingTooLong)?;
    setting_from(alloc, &bytes)
}

/// Whether a setting is general.
pub fn is_general(file: &SettingFile) -> bool
    ensures { result ≡ is_general file.now }
{
    matches!(file, SettingFile::General(_))
}

/// The general setting that a file says.
pub fn general(file: &SettingFile) -> &Setting
    requires { IsGeneral file.now }
    ensures { file.now ≡ files.General result.now }
{
    match file {
        SettingFile::General(setting) => setting,
        SettingFile::Auction(_) | SettingFile::Bidders(_) => unreachable!(),
    }
}

/// Whether a setting has no groups of bidders.
pub fn has_no_groups(file: &SettingFile) -> bool
    ensures { result ≡ has_no_groups file.now }
{
    !matches!(file, SettingFile::Bidders(_))
}

/// Whether a setting is an auction.
pub fn is_auction(file: &SettingFile) -> bool
    ensures { result ≡ is_auction file.now }
{
    matches!(file, SettingFile::Auction(_))
}

/// The auction that a file says.
pub fn auction(file: &SettingFile) -> &Auction
    requires { is_auction file.now ≡ true }
    ensures { file.now ≡ files.Auction result.now }
{
    match file {
        SettingFile::Auction(auction) => auction,
        SettingFile::General(_) | SettingFile::Bidders(_) => unreachable!(),
    }
}
