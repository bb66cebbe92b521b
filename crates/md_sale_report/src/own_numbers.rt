//! Interim odds and payments of a sale as numbers in the form of a mechanism.
ghost use Rattle.std.specs.Prelude.{◌≡◌, ◌<◌, ◌+◌, ◌++◌, IfOk, OnOk, length};
ghost use Rattle.md_math.specs.Lists.{list_to, up_to};
ghost use Rattle.md_space.specs.Profiles.{profile_count, profile_at};
ghost use Rattle.md_setting.specs.Meaning.{agent_count, outcome_count, sizes_of};
ghost use Rattle.md_setting.specs.Shaped.{IsShaped};
ghost use Rattle.md_asym_sale.specs.Values.{pairs_of};
ghost use Rattle.md_sale_report.specs.OwnNumbers.{own_number, own_chance, own_numbers};

use md_asym_sale::{agents, pair_number, profiles, type_at};
use md_border::Interim;
use md_mech::Mechanism;
use md_num::{NoMemory, Nums};
use md_setting::Setting;
use std::alloc::Global;

/// The numbers in which each agent has the item as often as the odds of its type say, and pays what its type pays, whatever
/// the others' types. That the item is kept is left out. They need not be a mechanism.
pub(crate) fn own_numbers(
    alloc: Global,
    setting: &Setting,
    interim: &Interim,
) -> Result<Mechanism, NoMemory>
    requires one_more { outcome_count setting.now ≡ agent_count setting.now + 1 }
    requires odds { length interim.now.odds ≡ pairs_of setting.now }
    requires pays { length interim.now.pays ≡ pairs_of setting.now }
    ensures value { IfOk result (λ numbers. numbers ≡ own_numbers setting.now interim.now) }
    ensures shaped { IfOk result (λ _. IsShaped setting.now) }
{
    Ok(Mechanism {
        den: interim.den,
        chances: chances(alloc, setting, &interim.odds)?,
        pays: pays(alloc, setting, &interim.pays)?,
    })
}

// The chances of all outcomes at the profiles of all ranks.
fn chances(alloc: Global, setting: &Setting, odds: &Nums) -> Result<Nums, NoMemory>
    requires one_more { outcome_count setting.now ≡ agent_count setting.now + 1 }
    requires odds { length odds.now ≡ pairs_of setting.now }
    ensures value { IfOk result (λ chances. chances ≡ up_to (profile_count (sizes_of setting.now)) (λ r. list_to (outcome_count setting.now) (own_chance setting.now odds.now (profile_at (sizes_of setting.now) r)))) }
    ensures shaped { IfOk result (λ _. IsShaped setting.now) }
{
    let mut chances = Nums::new(alloc);
    for rank in 0..profiles(setting) {
        push_chances(&mut chances, setting, odds, rank)?;
    }
    Ok(chances)
}

// Those of one rank, behind others.
fn push_chances(
    chances: &mut Nums,
    setting: &Setting,
    odds: &Nums,
    rank: u32,
) -> Result<(), NoMemory>
    requires one_more { outcome_count setting.now ≡ agent_count setting.now + 1 }
    requires odds { length odds.now ≡ pairs_of setting.now }
    requires rank_in { rank < profile_count (sizes_of setting.now) }
    ensures { OnOk result (chances.new ≡ chances.old ++ list_to (outcome_count setting.now) (own_chance setting.now odds.now (profile_at (sizes_of setting.now) rank))) }
{
    chances.push(0)?;
    for agent in 0..agents(setting) {
        chances.push(own_number(setting, odds, rank, agent))?;
    }
    Ok(())
}

// What all agents pay at the profiles of all ranks.
fn pays(alloc: Global, setting: &Setting, numbers: &Nums) -> Result<Nums, NoMemory>
    requires { length numbers.now ≡ pairs_of setting.now }
    ensures { IfOk result (λ pays. pays ≡ up_to (profile_count (sizes_of setting.now)) (λ r. list_to (agent_count setting.now) (λ i. own_number setting.now numbers.now i (profile_at (sizes_of setting.now) r)))) }
{
    let mut pays = Nums::new(alloc);
    for rank in 0..profiles(setting) {
        push_pays(&mut pays, setting, numbers, rank)?;
    }
    Ok(pays)
}

// What they pay at that of one rank, behind others.
fn push_pays(pays: &mut Nums, setting: &Setting, numbers: &Nums, rank: u32) -> Result<(), NoMemory>
    requires numbers { length numbers.now ≡ pairs_of setting.now }
    requires rank_in { rank < profile_count (sizes_of setting.now) }
    ensures { OnOk result (pays.new ≡ pays.old ++ list_to (agent_count setting.now) (λ i. own_number setting.now numbers.now i (profile_at (sizes_of setting.now) rank))) }
{
    for agent in 0..agents(setting) {
        pays.push(own_number(setting, numbers, rank, agent))?;
    }
    Ok(())
}

// Of numbers by pair, that of the type of an agent at the profile of a rank.
fn own_number(setting: &Setting, numbers: &Nums, rank: u32, agent: u8) -> i128
    requires numbers { length numbers.now ≡ pairs_of setting.now }
    requires rank_in { rank < profile_count (sizes_of setting.now) }
    requires agent_in { agent < agent_count setting.now }
    ensures { result ≡ own_number setting.now numbers.now agent (profile_at (sizes_of setting.now) rank) }
{
    let kind = type_at(setting, rank, agent);
    numbers.get(pair_number(setting, agent, kind) as usize)
}
