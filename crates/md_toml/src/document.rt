//! What the bytes of a file say as a document, and what its first keys say.
ghost use Rattle.std.specs.Prelude.{◌≡◌};
ghost use Rattle.toml.specs.View.{view, table_view};
ghost use Rattle.md_toml.specs.Reading.{Gives};
ghost use Rattle.md_toml.specs.Document.{document_of, format_in, is_text, says_bidders, version_in, kind_in, kind_of};

use crate::values::{member_at, read_integer, read_text, value_at};
use crate::{Key, SettingRefusal};
use std::alloc::Global;
use toml::{Table, Value};

#[tactic(auto, using(crate::proofs::Utf8::text_tests))]
pub(crate) fn read_document(alloc: Global, bytes: &[u8]) -> Result<Table, SettingRefusal>
    ensures { Gives table_view result (document_of bytes.now) }
{
    let Ok(text) = std::str::from_utf8(bytes) else {
        return Err(SettingRefusal::NotToml);
    };
    match toml::table_from_str(alloc, text) {
        Ok(table) => Ok(table),
        Err(error) if error.is_memory() => Err(SettingRefusal::Memory),
        Err(_) => Err(SettingRefusal::NotToml),
    }
}

fn read_format(key: Key, value: &Value) -> Result<(), SettingRefusal>
    ensures { Gives (λ _. tt) result (format_in key (view value.now)) }
{
    match read_text(key, value)?.as_str() {
        "mechanism-setting" => Ok(()),
        _ => Err(SettingRefusal::UnknownWord(key)),
    }
}

/// The version of a file about a general setting. In the second one the utility of an agent may depend on the types of all
/// agents.
#[derive(Clone, Copy)]
pub(crate) enum Version {
    One,
    Two,
}

/// What a file is about.
#[derive(Clone, Copy)]
pub(crate) enum Kind {
    /// A setting with agents and outcomes of its own.
    General(Version),
    /// A symmetric auction of one item.
    Auction,
    /// An auction with groups of bidders who differ.
    Bidders,
}

/// What the first keys say: the kind of the file, and the version where that tells something.
pub(crate) fn read_kind(members: &Table) -> Result<Kind, SettingRefusal>
    ensures { Gives (λ kind. kind) result (kind_of (table_view members.now)) }
{
    read_format(Key::Format, value_at(members, Key::Format)?)?;
    let of_bidders = says_bidders(members);
    let version = read_version(of_bidders, Key::Version, value_at(members, Key::Version)?)?;
    match version {
        Some(version) => read_early_kind(version, Key::Kind, value_at(members, Key::Kind)?),
        None => Ok(Kind::Bidders),
    }
}

// Whether the file says that it is about groups of bidders.
fn says_bidders(members: &Table) -> bool
    ensures { result ≡ says_bidders (table_view members.now) }
{
    match member_at(members, Key::Kind) {
        Some(value) => is_text("bidders", value),
        None => false,
    }
}

fn is_text(word: &str, value: &Value) -> bool
    ensures { result ≡ is_text word.now (view value.now) }
{
    match value {
        Value::String(text) => text.as_str() == word,
        _ => false,
    }
}

// The version of the format, or none where it is the third one, that of groups of bidders alone.
fn read_version(
    of_bidders: bool,
    key: Key,
    value: &Value,
) -> Result<Option<Version>, SettingRefusal>
    ensures { Gives (λ version. version) result (version_in of_bidders key (view value.now)) }
{
    match read_integer(key, value)? {
        1 => Ok(Some(Version::One)),
        2 => Ok(Some(Version::Two)),
        3 if of_bidders => Ok(None),
        _ => Err(SettingRefusal::UnknownWord(key)),
    }
}

// The kind of setting in the first two versions.
fn read_early_kind(version: Version, key: Key, value: &Value) -> Result<Kind, SettingRefusal>
    ensures { Gives (λ kind. kind) result (kind_in version key (view value.now)) }
{
    match read_text(key, value)?.as_str() {
        "general" => Ok(Kind::General(version)),
        "auction" => Ok(Kind::Auction),
        _ => Err(SettingRefusal::UnknownWord(key)),
    }
}
