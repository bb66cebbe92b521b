//! Setting files: TOML documents that say what a setting is.
#![tactic(auto)]

ghost use Rattle.std.specs.Prelude.{◌≡◌, Ok, IfOk};
ghost use Rattle.md_toml.specs.Reading.{Gives};
ghost use Rattle.md_toml.specs.Document.{document_of};
ghost use Rattle.md_toml.specs.File.{built, built_auction, built_grouped, file_of, setting_of};
ghost use Rattle.md_setting.specs.Setting.{written};
ghost use Rattle.md_setting.specs.Grouped.{written_grouped};
ghost use Rattle.md_toml.specs.AuctionText.{said_auction};
ghost use Rattle.md_toml.specs.Writing.{file_table};
ghost use Rattle.toml.specs.View.{table_view};

mod auction;
mod document;
mod general;
mod grouped;
mod key;
mod known;
mod print;
mod refusal;
mod values;
mod write;

use auction::{RawAuction, read_auction};
use document::{Kind, read_document, read_kind};
use general::read_general;
use grouped::read_grouped;
pub use key::Key;
use md_num::NoMemory;
use md_setting::{
    Auction, BuildRefusal, GroupedAuction, RawGroupedAuction, RawSetting, Setting, SettingFile,
};
pub use refusal::SettingRefusal;
use std::alloc::Global;
use toml::Table;
use write::file_table;

/// The setting that the bytes of a file say, or the first reason to refuse them, in the order of docs/FORMATS.md.
pub fn read_setting(alloc: Global, bytes: &[u8]) -> Result<SettingFile, SettingRefusal>
    ensures { Gives (λ file. file) result (setting_of bytes.now) }
{
    let members = read_document(alloc, bytes)?;
    let kind = read_kind(&members)?;
    read_file(alloc, kind, &members)
}

/// The bytes of a file that says this setting, in the first version of the format that can say it.
pub fn write_setting(alloc: Global, file: &SettingFile) -> Result<Vec<u8>, NoMemory>
    ensures reads_back { IfOk result (λ text. setting_of text.items ≡ Ok file.now) }

    // Its document has the version that the setting needs, and all other keys in one way.
    ensures document { IfOk result (λ text. document_of text.items ≡ Ok (file_table file.now)) }
{
    let members = file_table(alloc, file)?;
    // A document without dates is refused where memory ran out, and only there.
    match toml::table_to_string(alloc, &members) {
        Ok(text) => Ok(text.into_bytes()),
        Err(_) => Err(NoMemory),
    }
}

// What the document says of its kind of setting.
fn read_file(alloc: Global, kind: Kind, members: &Table) -> Result<SettingFile, SettingRefusal>
    ensures { Gives (λ file. file) result (file_of kind (table_view members.now)) }
{
    match kind {
        Kind::General(version) => {
            let setting = build(alloc, read_general(alloc, members, version)?)?;
            Ok(SettingFile::General(setting))
        }
        Kind::Auction => {
            let auction = build_auction(alloc, read_auction(alloc, members)?)?;
            Ok(SettingFile::Auction(auction))
        }
        Kind::Bidders => {
            let auction = build_grouped(alloc, read_grouped(alloc, members)?)?;
            Ok(SettingFile::Bidders(auction))
        }
    }
}

// The setting that was written, unless it is refused.
fn build(alloc: Global, raw: RawSetting) -> Result<Setting, SettingRefusal>
    ensures { Gives (λ setting. setting) result (built (written raw)) }
{
    match Setting::new(alloc, raw) {
        Ok(setting) => Ok(setting),
        Err(BuildRefusal::Memory) => Err(SettingRefusal::Memory),
        Err(refusal) => Err(SettingRefusal::Build(refusal)),
    }
}

// The auction that was written, unless it is refused.
fn build_auction(alloc: Global, raw: RawAuction) -> Result<Auction, SettingRefusal>
    ensures { Gives (λ auction. auction) result (built_auction (said_auction raw)) }
{
    match Auction::new(
        alloc,
        raw.bidders,
        &raw.values,
        &raw.weights,
        raw.revenue,
        raw.welfare,
        raw.keep,
    ) {
        Ok(auction) => Ok(auction),
        Err(BuildRefusal::Memory) => Err(SettingRefusal::Memory),
        Err(refusal) => Err(SettingRefusal::Build(refusal)),
    }
}

// The auction with groups of bidders that was written, unless it is refused.
fn build_grouped(alloc: Global, raw: RawGroupedAuction) -> Result<GroupedAuction, SettingRefusal>
    ensures { Gives (λ auction. auction) result (built_grouped (written_grouped raw)) }
{
    match GroupedAuction::new(alloc, raw) {
        Ok(auction) => Ok(auction),
        Err(BuildRefusal::Memory) => Err(SettingRefusal::Memory),
        Err(refusal) => Err(SettingRefusal::Build(refusal)),
    }
}
