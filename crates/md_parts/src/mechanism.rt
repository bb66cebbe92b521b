//! The records of a mechanism and of payments, read and written.
ghost use Rattle.std.specs.Prelude.{◌≡◌, ◌≢◌, ◌<◌, ◌*◌, ◌++◌, ℕ, ℤ, pos, List, Ok, Err, length, replicate, IfOk, IfErr, OnOk, MatchResult};
ghost use Rattle.md_space.specs.Profiles.{profile_count, profile_at};
ghost use Rattle.md_space.specs.AllProfiles.{profiles_of};
ghost use Rattle.md_setting.specs.Meaning.{agent_count, sizes_of};
ghost use Rattle.md_mech.specs.Accepted.{IsAccepted};
ghost use Rattle.md_parts.specs.Table.{denominator_of, lottery_of, payments_of, each_profile, all_payments_of, mechanism_of};
ghost use Rattle.md_parts.specs.Rows.{payment_rows, mechanism_rows};
ghost use Rattle.md_parts.specs.Fitting.{IsRayFor};
ghost use Rattle.md_parts.specs.Written.{IsWrittenBefore};

use crate::AnswerRefusal;
use crate::numbers::push_numbers;
use crate::profiles::{agents_of, outcomes_of, push_profiles, read_at_profile};
use crate::range::Range;
use crate::reader::Reader;
use md_mech::Mechanism;
use md_num::{NoMemory, Nums};
use md_records::Row;
use md_setting::Setting;
use std::alloc::Global;

// The denominator of a table.
fn read_denominator(reader: &mut Reader) -> Result<i128, AnswerRefusal>
    ensures { MatchResult result
        (λ den. denominator_of reader.old ≡ Ok (den, reader.new))
        (λ refusal. refusal ≢ AnswerRefusal.Memory → denominator_of reader.old ≡ Err refusal) }
{
    let mut fields = reader.next("table", 1)?;
    fields.number(62, Range::FromOne)
}

// The chances of the outcomes at a profile, which are added to a list.
fn read_lottery(
    reader: &mut Reader,
    setting: &Setting,
    den: i128,
    rank: u32,
    chances: &mut Nums,
) -> Result<(), AnswerRefusal>
    requires { rank < profile_count (sizes_of setting.now) }
    ensures { MatchResult result
        (λ _. (numbers : List ℤ) × (lottery_of setting.now den (profile_at (sizes_of setting.now) rank) reader.old ≡ Ok (numbers, reader.new)) × (chances.new ≡ chances.old ++ numbers))
        (λ refusal. refusal ≢ AnswerRefusal.Memory → lottery_of setting.now den (profile_at (sizes_of setting.now) rank) reader.old ≡ Err refusal) }
{
    let outcomes = outcomes_of(setting);
    let sum = read_at_profile(
        reader,
        setting,
        "lottery",
        rank,
        outcomes,
        Range::FromZero,
        chances,
    )?;
    reader.adds(sum, den)
}

// What each agent pays at a profile, which is added to a list.
fn read_payments(
    reader: &mut Reader,
    setting: &Setting,
    word: &str,
    rank: u32,
    pays: &mut Nums,
) -> Result<(), AnswerRefusal>
    requires { rank < profile_count (sizes_of setting.now) }
    ensures { MatchResult result
        (λ _. (numbers : List ℤ) × (payments_of word.now setting.now (profile_at (sizes_of setting.now) rank) reader.old ≡ Ok (numbers, reader.new)) × (pays.new ≡ pays.old ++ numbers))
        (λ refusal. refusal ≢ AnswerRefusal.Memory → payments_of word.now setting.now (profile_at (sizes_of setting.now) rank) reader.old ≡ Err refusal) }
{
    let agents = agents_of(setting);
    read_at_profile(reader, setting, word, rank, agents, Range::Any, pays)?;
    Ok(())
}

// The chances at all profiles.
fn read_chances(
    alloc: Global,
    reader: &mut Reader,
    setting: &Setting,
    den: i128,
) -> Result<Nums, AnswerRefusal>
    ensures { MatchResult result
        (λ chances. each_profile (lottery_of setting.now den) (profiles_of (sizes_of setting.now)) reader.old ≡ Ok (chances, reader.new))
        (λ refusal. refusal ≢ AnswerRefusal.Memory → each_profile (lottery_of setting.now den) (profiles_of (sizes_of setting.now)) reader.old ≡ Err refusal) }
{
    let mut chances = Nums::new(alloc);
    for rank in 0..setting.space().profiles() {
        read_lottery(reader, setting, den, rank, &mut chances)?;
    }
    Ok(chances)
}

// What is paid at all profiles.
fn read_all_payments(
    alloc: Global,
    reader: &mut Reader,
    setting: &Setting,
    word: &str,
) -> Result<Nums, AnswerRefusal>
    ensures { MatchResult result
        (λ pays. each_profile (payments_of word.now setting.now) (profiles_of (sizes_of setting.now)) reader.old ≡ Ok (pays, reader.new))
        (λ refusal. refusal ≢ AnswerRefusal.Memory → each_profile (payments_of word.now setting.now) (profiles_of (sizes_of setting.now)) reader.old ≡ Err refusal) }
{
    let mut pays = Nums::new(alloc);
    for rank in 0..setting.space().profiles() {
        read_payments(reader, setting, word, rank, &mut pays)?;
    }
    Ok(pays)
}

// So many zeros.
fn zeros(alloc: Global, count: usize) -> Result<Nums, AnswerRefusal>
    ensures ok { IfOk result (λ zeros. zeros ≡ replicate count (pos 0)) }
    ensures memory { IfErr result (λ refusal. refusal ≡ AnswerRefusal.Memory) }
{
    let mut zeros = Nums::new(alloc);
    for place in 0..count {
        let _ = place;
        zeros.push(0)?;
    }
    Ok(zeros)
}

/// What is paid at all profiles, in records that begin with a word and stand exactly where payments are on.
///
/// # Errors
/// The first record that may not stand there or has a wrong field, or that memory ran out.
#[tactic(auto, using(crate::proofs::PartsRead::known))]
pub fn read_pays(
    alloc: Global,
    reader: &mut Reader,
    setting: &Setting,
    word: &str,
) -> Result<Nums, AnswerRefusal>
    ensures read { MatchResult result
        (λ pays. all_payments_of word.now setting.now (setting.now).payments reader.old ≡ Ok (pays, reader.new))
        (λ refusal. refusal ≢ AnswerRefusal.Memory → all_payments_of word.now setting.now (setting.now).payments reader.old ≡ Err refusal) }
    ensures sizes { IfOk result (IsRayFor setting.now) }
{
    if setting.payments() {
        return read_all_payments(alloc, reader, setting, word);
    }
    let profiles = setting.space().profiles() as usize;
    zeros(alloc, profiles * agents_of(setting))
}

/// The records of a mechanism.
///
/// # Errors
/// The first record that may not stand there or has a wrong field, or that memory ran out.
#[tactic(auto, using(crate::proofs::PartsRead::known))]
pub fn read_mechanism(
    alloc: Global,
    reader: &mut Reader,
    setting: &Setting,
) -> Result<Mechanism, AnswerRefusal>
    ensures read { MatchResult result
        (λ mechanism. mechanism_of setting.now reader.old ≡ Ok (mechanism, reader.new))
        (λ refusal. refusal ≢ AnswerRefusal.Memory → mechanism_of setting.now reader.old ≡ Err refusal) }
    ensures accepted { IfOk result (IsAccepted setting.now) }
{
    let den = read_denominator(reader)?;
    let chances = read_chances(alloc, reader, setting, den)?;
    let pays = read_pays(alloc, reader, setting, "pay")?;
    Ok(Mechanism { den, chances, pays })
}

/// Adds the numbers of the agents at each profile, where payments are on.
///
/// # Errors
/// Want of memory.
#[tactic(auto, using(crate::proofs::WrittenParts::laws))]
pub fn push_pays(
    alloc: Global,
    to: &mut Vec<Row>,
    setting: &Setting,
    word: &str,
    numbers: &Nums,
) -> Result<(), NoMemory>
    requires { length numbers.now ≡ profile_count (sizes_of setting.now) * agent_count setting.now }
    ensures rows { OnOk result (to.new.items ≡ to.old.items ++ payment_rows word.now setting.now numbers.now (setting.now).payments) }
    ensures reads_back { (others : List (List (List ℕ))) → IsRayFor setting.now numbers.now → IsWrittenBefore others (all_payments_of word.now setting.now (setting.now).payments) (payment_rows word.now setting.now numbers.now (setting.now).payments) numbers.now }
{
    if !setting.payments() {
        return Ok(());
    }
    push_profiles(alloc, to, setting, word, numbers, agents_of(setting))
}

/// Adds the records of a mechanism.
///
/// # Errors
/// Want of memory.
#[tactic(auto, using(crate::proofs::WrittenParts::laws))]
pub fn push_mechanism(
    alloc: Global,
    to: &mut Vec<Row>,
    setting: &Setting,
    mechanism: &Mechanism,
) -> Result<(), NoMemory>
    requires { IsAccepted setting.now mechanism.now }
    ensures rows { OnOk result (to.new.items ≡ to.old.items ++ mechanism_rows setting.now mechanism.now) }
    ensures reads_back { (others : List (List (List ℕ))) → IsWrittenBefore others (mechanism_of setting.now) (mechanism_rows setting.now mechanism.now) mechanism.now }
{
    push_numbers(alloc, to, "table", &[mechanism.den])?;
    push_profiles(
        alloc,
        to,
        setting,
        "lottery",
        &mechanism.chances,
        outcomes_of(setting),
    )?;
    push_pays(alloc, to, setting, "pay", &mechanism.pays)
}
