//! The reports that a text names, one for each agent, with commas between them.
ghost use Rattle.std.specs.Prelude.{◌≡◌, ◌≢◌, ◌<◌, ◌↔◌, ℕ, [], IsTrue, IfOk, MatchOption, List, map, length, slice_index_or};
ghost use Rattle.md_math.specs.Lists.{number_at};
ghost use Rattle.md_num.specs.WholeText.{text_of};
ghost use Rattle.md_setting.specs.Auction.{value_count};
ghost use Rattle.md_setting.specs.Meaning.{agent_count};
ghost use Rattle.md_setting.specs.declared.file.SettingFile.TheVariants.{General};
ghost use Rattle.md_cli_tell.specs.Drawing.{AreNamesOf, IsNameOf, IsNoName, parts_of, sizes_in};

use md_num::{NoMemory, read_whole};
use md_setting::{Auction, Setting, SettingFile};
use std::alloc::{AllocError, Global};

/// The reports that a text names: of a general setting each part names a type of its agent; of an auction each part is the
/// text of a value. None where a part names none, or where there are more or fewer parts than agents.
pub(crate) fn reports_of(
    alloc: Global,
    file: &SettingFile,
    text: &str,
) -> Result<Option<Vec<u8>>, NoMemory>
    ensures { IfOk result (λ found. MatchOption found ((t : List ℕ) → ¬ AreNamesOf file.now (parts_of text.now) t) (λ reports. AreNamesOf file.now (parts_of text.now) reports.items)) }
{
    let parts = parts_of(alloc, text)?;
    named(alloc, file, &parts)
}

// The parts of a text between its commas.
fn parts_of(alloc: Global, text: &str) -> Result<Vec<&str>, AllocError>
    ensures { IfOk result (λ parts. map (λ part. part.now) parts.items ≡ parts_of text.now) }
{
    text.split(',').collect(alloc)
}

// The reports that some parts name.
fn named(alloc: Global, file: &SettingFile, parts: &[&str]) -> Result<Option<Vec<u8>>, NoMemory>
    ensures { IfOk result (λ found. MatchOption found ((t : List ℕ) → ¬ AreNamesOf file.now (map (λ part. part.now) parts.now) t) (λ reports. AreNamesOf file.now (map (λ part. part.now) parts.now) reports.items)) }
{
    if !has_length(parts, agents(file)) {
        return Ok(None);
    }
    let mut reports = Vec::new(alloc);
    for agent in 0..agents(file) {
        match report_of(file, agent, part_at(parts, agent)) {
            Some(report) => reports.push(report)?,
            None => return Ok(None),
        }
    }
    Ok(Some(reports))
}

// The number of agents, or of bidders.
fn agents(file: &SettingFile) -> u8
    ensures { result ≡ length (sizes_in file.now) }
{
    match file {
        SettingFile::General(setting) => setting.space().agents(),
        SettingFile::Auction(auction) => auction.bidders() as u8,
        SettingFile::Bidders(_) => 0,
    }
}

fn has_length(parts: &[&str], count: u8) -> bool
    ensures { IsTrue result ↔ (length (map (λ part. part.now) parts.now) ≡ count) }
{
    parts.len() == usize::from(count)
}

fn part_at<'a>(parts: &[&'a str], agent: u8) -> &'a str
    requires { agent < length (map (λ part. part.now) parts.now) }
    ensures { result.now ≡ slice_index_or (map (λ part. part.now) parts.now) agent [] }
{
    parts[usize::from(agent)]
}

// The report of an agent that a text names.
fn report_of(file: &SettingFile, agent: u8, name: &str) -> Option<u8>
    requires { agent < length (sizes_in file.now) }
    ensures { MatchOption result (IsNoName file.now agent name.now) (IsNameOf file.now agent name.now) }
{
    match file {
        SettingFile::General(setting) => type_of(setting, agent, name),
        SettingFile::Auction(auction) => value_of(auction, name),
        SettingFile::Bidders(_) => unreachable!(),
    }
}

// The type of an agent that a text names.
fn type_of(setting: &Setting, agent: u8, name: &str) -> Option<u8>
    requires { agent < agent_count setting.now }
    ensures { MatchOption result (IsNoName (General setting.now) agent name.now) (IsNameOf (General setting.now) agent name.now) }
{
    setting.type_of(agent, name)
}

// The place of the value that a text is the text of.
fn value_of(auction: &Auction, text: &str) -> Option<u8>
    ensures { MatchOption result
        ((k : ℕ) → k < value_count auction.now → text.now ≢ text_of (number_at auction.now.values k))
        (λ k. (k < value_count auction.now) × (text.now ≡ text_of (number_at auction.now.values k))) }
{
    let _few = auction.kinds();
    match read_whole(text.as_bytes(), 62) {
        Ok(value) => place_of(auction, value),
        Err(_) => None,
    }
}

// The place of a value.
fn place_of(auction: &Auction, value: i128) -> Option<u8>
    ensures { MatchOption result
        ((k : ℕ) → k < value_count auction.now → number_at auction.now.values k ≢ value)
        (λ k. (k < value_count auction.now) × (number_at auction.now.values k ≡ value)) }
{
    for kind in 0..auction.kinds() {
        if is_same(auction.value(kind), value) {
            return Some(kind as u8);
        }
    }
    None
}

fn is_same(own: i64, value: i128) -> bool
    ensures { IsTrue result ↔ (own ≡ value) }
{
    i128::from(own) == value
}
