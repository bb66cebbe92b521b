//! The records of the masses of a profile table, read and written.
ghost use Rattle.std.specs.Prelude.{◌≡◌, ◌≢◌, ◌<◌, ◌≤◌, ◌+◌, ◌-◌, ◌*◌, ◌^◌, ◌++◌, ℤ, List, pos, ◌≤ℤ◌, Ok, Err, codes, length, replicate, slice_index, slice_index_or, [], IfOk, OnOk, MatchResult};
ghost use Rattle.md_space.specs.Profiles.{profile_at, profile_count};
ghost use Rattle.md_setting.specs.Meaning.{agent_at, agent_count, sizes_of, weight_of};
ghost use Rattle.md_mech.specs.Accepted.{number_limit};
ghost use Rattle.md_parts.specs.FieldsRead.{FailsIn, Reads};
ghost use Rattle.md_parts.specs.Rows.{profile_rows};
ghost use Rattle.md_parts.specs.Table.{profile_fields};
ghost use Rattle.md_asym_sale.specs.Sale.{IsSale};
ghost use Rattle.md_asym_sale.specs.Values.{pairs_of};
ghost use Rattle.md_asym_tables.specs.PairNets.{cap_at};
ghost use Rattle.md_asym_tables.specs.Tables.{IsProfileTable};
ghost use Rattle.md_cut_check.specs.Interims.{IsInterimOver};
ghost use Rattle.md_asym.specs.SaleReading.{masses_at, masses_of};

use md_asym_sale::{agents, profiles, type_at};
use md_border::Interim;
use md_num::{NoMemory, Nums};
use md_parts::{AnswerRefusal, Fields, Reader, push_pays};
use md_records::Row;
use md_setting::Setting;
use std::alloc::Global;

/// The greatest number of 126 bits.
const MOST: u128 = 85070591730234615865843651857942052863;

// The denominator of odds, which is not negative.
fn den_of(interim: &Interim) -> u64
    requires positive { pos 1 ≤ℤ interim.now.den }
    requires size { interim.now.den ≤ℤ pos number_limit }
    ensures value { pos result ≡ interim.now.den }
    ensures size { result < 2 ^ 62 }
{
    interim.den as u64
}

// How many bidders there are.
fn bidders(setting: &Setting) -> usize
    ensures count { result ≡ agent_count setting.now }
    ensures few { result ≤ 6 }
{
    usize::from(agents(setting))
}

// The weight of the profile of a rank.
fn weight(setting: &Setting, rank: u32) -> u128
    requires { rank < profile_count (sizes_of setting.now) }
    ensures value { pos result ≡ weight_of setting.now (profile_at (sizes_of setting.now) rank) }
    ensures size { result ≤ 1000000 }
{
    setting.weight(rank).unsigned_abs()
}

// What there is to give at the profile of a rank, in units of one over the denominator.
fn whole_at(setting: &Setting, den: u64, rank: u32) -> u128
    requires rank_in { rank < profile_count (sizes_of setting.now) }
    requires den { den < 2 ^ 62 }
    ensures value { pos result ≡ cap_at setting.now (pos den) rank }
    ensures size { result < 2 ^ 126 }
{
    u128::from(den) * weight(setting, rank)
}

// The greatest number that may stand for a mass, for so many masses.
fn most_masses(alloc: Global, count: usize) -> Result<Vec<u128>, NoMemory>
    ensures { IfOk result (λ mosts. mosts.items ≡ replicate count (2 ^ 126 - 1)) }
{
    let mut mosts = Vec::new(alloc);
    for place in 0..count {
        let _ = place;
        mosts.push(MOST)?;
    }
    Ok(mosts)
}

// The name of the type that the profile of a rank gives to a bidder.
fn name_at(setting: &Setting, rank: u32, agent: u8) -> &str
    requires rank_in { rank < profile_count (sizes_of setting.now) }
    requires agent_in { agent < agent_count setting.now }
    ensures { result.now ≡ slice_index_or (agent_at setting.now agent).types (slice_index (profile_at (sizes_of setting.now) rank) agent) [] }
{
    setting.type_name(agent, type_at(setting, rank, agent))
}

// The next fields must be the names of the types of a profile, one for each bidder.
fn read_names(fields: &mut Fields, setting: &Setting, rank: u32) -> Result<(), AnswerRefusal>
    requires rank_in { rank < profile_count (sizes_of setting.now) }
    requires some { agent_count setting.now ≤ length fields.old.texts }
    ensures { MatchResult result
        (λ _. Reads (profile_fields setting.now (profile_at (sizes_of setting.now) rank)) fields.old fields.new (replicate (agent_count setting.now) (pos 0)))
        (λ refusal. FailsIn (profile_fields setting.now (profile_at (sizes_of setting.now) rank)) fields.old refusal) }
{
    for agent in 0..agents(setting) {
        fields.word(name_at(setting, rank, agent))?;
    }
    Ok(())
}

// The record of the profile of a rank, whose masses are added to a list.
fn read_rank(
    reader: &mut Reader,
    setting: &Setting,
    den: u64,
    rank: u32,
    mosts: &[u128],
    masses: &mut Nums,
) -> Result<(), AnswerRefusal>
    requires rank_in { rank < profile_count (sizes_of setting.now) }
    requires den { den < 2 ^ 62 }
    requires mosts { mosts.now ≡ replicate (agent_count setting.now) (2 ^ 126 - 1) }
    ensures { MatchResult result
        (λ _. (numbers : List ℤ) × (masses_at setting.now (pos den) rank reader.old ≡ Ok (numbers, reader.new)) × (masses.new ≡ masses.old ++ numbers))
        (λ refusal. refusal ≢ AnswerRefusal.Memory → masses_at setting.now (pos den) rank reader.old ≡ Err refusal) }
{
    let whole = whole_at(setting, den, rank);
    let mut fields = reader.next("mass", 2 * bidders(setting))?;
    read_names(&mut fields, setting, rank)?;
    let sum = fields.amounts(mosts, whole, masses)?;
    reader.adds_at_most(sum, whole)
}

/// The records of the masses at all profiles, over the denominator of some odds.
///
/// # Errors
/// The first record that may not stand there, has a wrong field or adds to more than there is to give, or want of memory.
pub(crate) fn read_masses(
    alloc: Global,
    reader: &mut Reader,
    setting: &Setting,
    interim: &Interim,
) -> Result<Nums, AnswerRefusal>
    requires { IsInterimOver (pairs_of setting.now) interim.now }
    ensures reads { MatchResult result
        (λ masses. masses_of setting.now interim.now.den reader.old ≡ Ok (masses, reader.new))
        (λ refusal. refusal ≢ AnswerRefusal.Memory → masses_of setting.now interim.now.den reader.old ≡ Err refusal) }
    ensures known { IfOk result (IsProfileTable setting.now interim.now.den) }
{
    let den = den_of(interim);
    let mosts = most_masses(alloc, bidders(setting))?;
    let mut masses = Nums::new(alloc);
    for rank in 0..profiles(setting) {
        read_rank(reader, setting, den, rank, &mosts, &mut masses)?;
    }
    Ok(masses)
}

/// Adds a record for each profile, with the mass of each bidder.
///
/// # Errors
/// Want of memory.
pub(crate) fn push_masses(
    alloc: Global,
    rows: &mut Vec<Row>,
    setting: &Setting,
    masses: &Nums,
) -> Result<(), NoMemory>
    requires sale { IsSale setting.now }
    requires one_each { length masses.now ≡ profile_count (sizes_of setting.now) * agent_count setting.now }
    ensures { OnOk result (rows.new.items ≡ rows.old.items ++ profile_rows (codes "mass") setting.now masses.now (agent_count setting.now)) }
{
    push_pays(alloc, rows, setting, "mass", masses)
}
