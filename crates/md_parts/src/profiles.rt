//! Records that stand for a profile, read and written.
ghost use Rattle.std.specs.Prelude.{◌≡◌, ◌≢◌, ◌<◌, ◌≤◌, ◌+◌, ◌*◌, ◌++◌, ◌∷◌, ℕ, ℤ, pos, List, Ok, Err, [], length, replicate, slice_index, slice_index_or, IfOk, OnOk, MatchResult};
ghost use Rattle.md_math.specs.Lists.{number_at, list_to};
ghost use Rattle.md_math.specs.Sums.{total};
ghost use Rattle.md_num.specs.WholeText.{text_of};
ghost use Rattle.md_space.specs.Profiles.{profile_count, profile_at};
ghost use Rattle.md_setting.specs.Meaning.{agent_at, agent_count, outcome_count, sizes_of};
ghost use Rattle.md_mech.specs.RowName.{type_names};
ghost use Rattle.md_parts.specs.Reading.{read_record};
ghost use Rattle.md_parts.specs.Ranges.{ranged_field};
ghost use Rattle.md_parts.specs.FieldsRead.{Reads, FailsIn};
ghost use Rattle.md_parts.specs.Table.{profile_fields};
ghost use Rattle.md_parts.specs.Rows.{profile_row, profile_rows};

use crate::AnswerRefusal;
use crate::fields::Fields;
use crate::range::Range;
use crate::reader::Reader;
use md_num::{NoMemory, Nums};
use md_records::Row;
use md_setting::Setting;
use std::alloc::Global;

/// How many agents there are.
#[tactic(auto, using(crate::proofs::TableSteps::counts))]
pub(crate) fn agents_of(setting: &Setting) -> usize
    ensures value { result ≡ agent_count setting.now }
    ensures few { result ≤ 6 }
{
    setting.space().agents() as usize
}

/// How many outcomes there are.
pub(crate) fn outcomes_of(setting: &Setting) -> usize
    ensures value { result ≡ outcome_count setting.now }
    ensures few { result ≤ 16 }
{
    setting.outcomes() as usize
}

/// The name of the type that a profile gives to an agent.
#[tactic(auto, using(crate::proofs::TableSteps::counts))]
pub(crate) fn name_at(setting: &Setting, rank: u32, agent: u8) -> &str
    requires rank_in { rank < profile_count (sizes_of setting.now) }
    requires agent_in { agent < agent_count setting.now }
    ensures { result.now ≡ slice_index_or (agent_at setting.now agent).types (slice_index (profile_at (sizes_of setting.now) rank) agent) [] }
{
    setting.type_name(agent, setting.space().report(rank, agent))
}

// The names of the types of a profile, one for each agent.
fn read_names(fields: &mut Fields, setting: &Setting, rank: u32) -> Result<(), AnswerRefusal>
    requires rank_in { rank < profile_count (sizes_of setting.now) }
    requires some { agent_count setting.now ≤ length fields.old.texts }
    ensures { MatchResult result
        (λ _. Reads (profile_fields setting.now (profile_at (sizes_of setting.now) rank)) fields.old fields.new (replicate (agent_count setting.now) (pos 0)))
        (λ refusal. FailsIn (profile_fields setting.now (profile_at (sizes_of setting.now) rank)) fields.old refusal) }
{
    for agent in 0..setting.space().agents() {
        fields.word(name_at(setting, rank, agent))?;
    }
    Ok(())
}

// The numbers of a record that stands for a profile: its word, the names of the profile's types, and so many
// numbers in a range, which are added to a list. Answers what they add to.
pub(crate) fn read_at_profile(
    reader: &mut Reader,
    setting: &Setting,
    word: &str,
    rank: u32,
    count: usize,
    range: Range,
    to: &mut Nums,
) -> Result<i128, AnswerRefusal>
    requires rank_in { rank < profile_count (sizes_of setting.now) }
    requires few { count ≤ 16 }
    ensures { MatchResult result
        (λ sum. (numbers : List ℤ) × (read_record word.now (profile_fields setting.now (profile_at (sizes_of setting.now) rank) ++ replicate count (ranged_field 62 range)) reader.old ≡ Ok (replicate (agent_count setting.now) (pos 0) ++ numbers, reader.new))
        × (to.new ≡ to.old ++ numbers) × (sum ≡ total numbers))
        (λ refusal. refusal ≢ AnswerRefusal.Memory → read_record word.now (profile_fields setting.now (profile_at (sizes_of setting.now) rank) ++ replicate count (ranged_field 62 range)) reader.old ≡ Err refusal) }
{
    let mut fields = reader.next(word, agents_of(setting) + count)?;
    read_names(&mut fields, setting, rank)?;
    fields.numbers(count, range, to)
}

// The record with the names of the types of a profile after its fields.
fn with_names(row: Row, setting: &Setting, rank: u32) -> Result<Row, NoMemory>
    requires { rank < profile_count (sizes_of setting.now) }
    ensures { IfOk result (λ named. named ≡ row ++ type_names (setting.now).agents (profile_at (sizes_of setting.now) rank)) }
{
    let mut named = row;
    for agent in 0..setting.space().agents() {
        named = named.with(name_at(setting, rank, agent).as_bytes())?;
    }
    Ok(named)
}

// The record with so many of the numbers of a list, from a place on, after its fields.
fn with_numbers_from(row: Row, numbers: &Nums, from: usize, count: usize) -> Result<Row, NoMemory>
    requires { from + count ≤ length numbers.now }
    ensures { IfOk result (λ filled. filled ≡ row ++ list_to count (λ k. text_of (number_at numbers.now (from + k)))) }
{
    let _fits = numbers.len();
    let mut filled = row;
    for place in 0..count {
        filled = filled.with_number(numbers.get(from + place))?;
    }
    Ok(filled)
}

// Adds the record of a profile, with so many numbers of a list that is ordered by rank.
fn push_profile(
    alloc: Global,
    to: &mut Vec<Row>,
    setting: &Setting,
    word: &str,
    rank: u32,
    numbers: &Nums,
    count: usize,
) -> Result<(), NoMemory>
    requires rank_in { rank < profile_count (sizes_of setting.now) }
    requires few { count ≤ 16 }
    requires room { rank * count + count ≤ length numbers.now }
    ensures { OnOk result (to.new.items ≡ to.old.items ++ profile_row word.now setting.now numbers.now count (profile_at (sizes_of setting.now) rank) ∷ []) }
{
    let first = Row::new(alloc).with(word.as_bytes())?;
    let named = with_names(first, setting, rank)?;
    let from = rank as usize * count;
    to.push(with_numbers_from(named, numbers, from, count)?)?;
    Ok(())
}

/// Adds a record for each profile, with so many numbers of a list that is ordered by rank.
pub(crate) fn push_profiles(
    alloc: Global,
    to: &mut Vec<Row>,
    setting: &Setting,
    word: &str,
    numbers: &Nums,
    count: usize,
) -> Result<(), NoMemory>
    requires few { count ≤ 16 }
    requires one_each { length numbers.now ≡ profile_count (sizes_of setting.now) * count }
    ensures { OnOk result (to.new.items ≡ to.old.items ++ profile_rows word.now setting.now numbers.now count) }
{
    for rank in 0..setting.space().profiles() {
        push_profile(alloc, to, setting, word, rank, numbers, count)?;
    }
    Ok(())
}
