//! The records of odds and payments by pair, read and written.
ghost use Rattle.std.specs.Prelude.{◌≡◌, ◌≢◌, ◌<◌, ◌≤◌, ◌^◌, ◌++◌, ◌∷◌, [], ℤ, List, pos, Ok, Err, length, slice_index, IfOk, OnOk, MatchResult};
ghost use Rattle.md_setting.specs.Meaning.{agent_count, sizes_of};
ghost use Rattle.md_parts.specs.Ranges.{ranged_field};
ghost use Rattle.md_answer.specs.Odds.{interim_den};
ghost use Rattle.md_asym_sale.specs.Values.{pairs_of};
ghost use Rattle.md_cut_check.specs.Interims.{IsInterimOver};
ghost use Rattle.md_asym.specs.SaleReading.{agent_numbers, interim_of, pair_numbers};
ghost use Rattle.md_asym.specs.SaleRows.{agent_row, agent_rows, interim_rows, type_texts};

use md_asym_sale::{agents, pair_number};
use md_border::Interim;
use md_num::{NoMemory, Nums};
use md_parts::{AnswerRefusal, Range, Reader, push_numbers};
use md_records::Row;
use md_setting::Setting;
use std::alloc::Global;

// How many types a bidder has.
fn types_of(setting: &Setting, agent: u8) -> usize
    requires { agent < agent_count setting.now }
    ensures count { result ≡ slice_index (sizes_of setting.now) agent }
    ensures few { result ≤ 16 }
{
    setting.space().types(agent) as usize
}

// The denominator of the odds, the payments and the masses.
fn read_denominator(reader: &mut Reader) -> Result<u64, AnswerRefusal>
    ensures read { MatchResult result
        (λ den. interim_den reader.old ≡ Ok (pos den, reader.new))
        (λ refusal. refusal ≢ AnswerRefusal.Memory → interim_den reader.old ≡ Err refusal) }
    ensures size { IfOk result (λ den. (1 ≤ den) × (den < 2 ^ 62)) }
{
    let mut fields = reader.next("interim", 1)?;
    let den = fields.number(62, Range::FromOne)?;
    Ok(den as u64)
}

// The numbers of a bidder's types, which are added to a list.
fn read_agent(
    reader: &mut Reader,
    setting: &Setting,
    word: &str,
    agent: u8,
    range: Range,
    to: &mut Nums,
) -> Result<(), AnswerRefusal>
    requires { agent < agent_count setting.now }
    ensures { MatchResult result
        (λ _. (numbers : List ℤ) × (agent_numbers word.now setting.now (ranged_field 62 range) agent reader.old ≡ Ok (numbers, reader.new)) × (to.new ≡ to.old ++ numbers))
        (λ refusal. refusal ≢ AnswerRefusal.Memory → agent_numbers word.now setting.now (ranged_field 62 range) agent reader.old ≡ Err refusal) }
{
    let types = types_of(setting, agent);
    let mut fields = reader.next(word, 1 + types)?;
    fields.word(setting.agent_name(agent))?;
    fields.numbers(types, range, to)?;
    Ok(())
}

// The numbers of all pairs, in a record for each bidder.
fn read_pairs(
    alloc: Global,
    reader: &mut Reader,
    setting: &Setting,
    word: &str,
    range: Range,
) -> Result<Nums, AnswerRefusal>
    ensures { MatchResult result
        (λ numbers. pair_numbers word.now setting.now (ranged_field 62 range) reader.old ≡ Ok (numbers, reader.new))
        (λ refusal. refusal ≢ AnswerRefusal.Memory → pair_numbers word.now setting.now (ranged_field 62 range) reader.old ≡ Err refusal) }
{
    let mut numbers = Nums::new(alloc);
    for agent in 0..agents(setting) {
        read_agent(reader, setting, word, agent, range, &mut numbers)?;
    }
    Ok(numbers)
}

/// The odds and the payments over their denominator. No odds are over it.
///
/// # Errors
/// The first record that may not stand there or has a wrong field, or want of memory.
pub(crate) fn read_interim(
    alloc: Global,
    reader: &mut Reader,
    setting: &Setting,
) -> Result<Interim, AnswerRefusal>
    ensures reads { MatchResult result
        (λ interim. interim_of setting.now reader.old ≡ Ok (interim, reader.new))
        (λ refusal. refusal ≢ AnswerRefusal.Memory → interim_of setting.now reader.old ≡ Err refusal) }
    ensures known { IfOk result (IsInterimOver (pairs_of setting.now)) }
{
    let den = read_denominator(reader)?;
    let share = Range::Place {
        from: 0,
        below: den + 1,
    };
    let odds = read_pairs(alloc, reader, setting, "odds", share)?;
    let pays = read_pairs(alloc, reader, setting, "pays", Range::Any)?;
    Ok(Interim {
        den: i128::from(den),
        odds,
        pays,
    })
}

/// Adds the records of odds and payments: their denominator, the odds by bidder, and the payments by bidder.
///
/// # Errors
/// Want of memory.
pub(crate) fn push_interim(
    alloc: Global,
    rows: &mut Vec<Row>,
    setting: &Setting,
    interim: &Interim,
) -> Result<(), NoMemory>
    requires one_odds { length interim.now.odds ≡ pairs_of setting.now }
    requires one_pay { length interim.now.pays ≡ pairs_of setting.now }
    ensures { OnOk result (rows.new.items ≡ rows.old.items ++ interim_rows setting.now interim.now) }
{
    push_numbers(alloc, rows, "interim", &[interim.den])?;
    push_agents(alloc, rows, setting, "odds", &interim.odds)?;
    push_agents(alloc, rows, setting, "pays", &interim.pays)
}

// Adds a record for each bidder, with a number for each of its types.
fn push_agents(
    alloc: Global,
    rows: &mut Vec<Row>,
    setting: &Setting,
    word: &str,
    numbers: &Nums,
) -> Result<(), NoMemory>
    requires { length numbers.now ≡ pairs_of setting.now }
    ensures { OnOk result (rows.new.items ≡ rows.old.items ++ agent_rows word.now setting.now numbers.now) }
{
    for agent in 0..agents(setting) {
        push_agent(alloc, rows, setting, word, agent, numbers)?;
    }
    Ok(())
}

fn push_agent(
    alloc: Global,
    rows: &mut Vec<Row>,
    setting: &Setting,
    word: &str,
    agent: u8,
    numbers: &Nums,
) -> Result<(), NoMemory>
    requires agent_in { agent < agent_count setting.now }
    requires one_each { length numbers.now ≡ pairs_of setting.now }
    ensures { OnOk result (rows.new.items ≡ rows.old.items ++ agent_row word.now setting.now numbers.now agent ∷ []) }
{
    rows.push(agent_record(alloc, setting, word, agent, numbers)?)?;
    Ok(())
}

// The record of a bidder.
fn agent_record(
    alloc: Global,
    setting: &Setting,
    word: &str,
    agent: u8,
    numbers: &Nums,
) -> Result<Row, NoMemory>
    requires agent_in { agent < agent_count setting.now }
    requires one_each { length numbers.now ≡ pairs_of setting.now }
    ensures { IfOk result (λ row. row ≡ agent_row word.now setting.now numbers.now agent) }
{
    let named = Row::new(alloc)
        .with(word.as_bytes())?
        .with(setting.agent_name(agent).as_bytes())?;
    with_types(named, setting, agent, numbers)
}

// The record with a number for each type of a bidder after its fields.
fn with_types(row: Row, setting: &Setting, agent: u8, numbers: &Nums) -> Result<Row, NoMemory>
    requires agent_in { agent < agent_count setting.now }
    requires one_each { length numbers.now ≡ pairs_of setting.now }
    ensures { IfOk result (λ filled. filled ≡ row ++ type_texts setting.now numbers.now agent) }
{
    let mut filled = row;
    for kind in 0..setting.space().types(agent) {
        let pair = pair_number(setting, agent, kind);
        filled = filled.with_number(numbers.get(pair as usize))?;
    }
    Ok(filled)
}
