//! The net of a sale with interim odds: a source node for each profile, and a demand for each pair.
ghost use Rattle.std.specs.Prelude.{◌≡◌, ◌==◌, ℕ, ◌+◌, ◌^◌, ◌<◌, ◌≤◌, pos, ◌≤ℤ◌, length, slice_index, IfOk};
ghost use Rattle.md_math.specs.Lists.{list_to, number_at};
ghost use Rattle.md_math.specs.Sets.{member};
ghost use Rattle.md_space.specs.Profiles.{profile_count};
ghost use Rattle.md_setting.specs.Meaning.{sizes_of};
ghost use Rattle.md_setting.specs.Shaped.{IsShaped};
ghost use Rattle.md_asym_sale.specs.Sale.{IsSale};
ghost use Rattle.md_asym_sale.specs.Sides.{demand_at};
ghost use Rattle.md_asym_sale.specs.Values.{pairs_of};
ghost use Rattle.md_asym_tables.specs.Odds.{AreOdds};
ghost use Rattle.md_asym_tables.specs.PairNets.{IsNetOf, cap_at, has_at};

use md_asym_sale::{marginal_at, pair_at, pair_count, profiles, type_at};
use md_flow::Net;
use md_lp::Sets;
use md_num::{NoMemory, Nums, product};
use md_setting::Setting;
use std::alloc::Global;

/// The net whose flows are the profile tables with the odds.
pub(crate) fn net_of(
    alloc: Global,
    setting: &Setting,
    den: i128,
    odds: &Nums,
) -> Result<Net, NoMemory>
    requires sale { IsSale setting.now }
    requires odds { AreOdds setting.now den odds.now }
    ensures net { IfOk result (IsNetOf setting.now den odds.now) }
    ensures shaped { IfOk result (λ _. IsShaped setting.now) }
{
    let caps = caps(alloc, setting, den)?;
    let demands = demands(alloc, setting, odds)?;
    let touches = touches(alloc, setting)?;
    Ok(Net::new(caps, demands, touches))
}

// What there is to give at the profiles of all ranks.
fn caps(alloc: Global, setting: &Setting, den: i128) -> Result<Nums, NoMemory>
    requires { (pos 1 ≤ℤ den) × (den ≤ℤ pos 4611686018427387903) }
    ensures value { IfOk result (λ caps. caps ≡ list_to (profile_count (sizes_of setting.now)) (cap_at setting.now den)) }
    ensures shaped { IfOk result (λ _. IsShaped setting.now) }
{
    let mut caps = Nums::new(alloc);
    for rank in 0..profiles(setting) {
        caps.push(cap(setting, den, rank))?;
    }
    Ok(caps)
}

fn cap(setting: &Setting, den: i128, rank: u32) -> i128
    requires den_small { (pos 1 ≤ℤ den) × (den ≤ℤ pos 4611686018427387903) }
    requires rank_in { rank < profile_count (sizes_of setting.now) }
    ensures { result ≡ cap_at setting.now den rank }
{
    product(den, setting.weight(rank))
}

// The demands of all pairs.
fn demands(alloc: Global, setting: &Setting, odds: &Nums) -> Result<Nums, NoMemory>
    requires one_each { length odds.now ≡ pairs_of setting.now }
    requires small { (p : ℕ) → p < pairs_of setting.now → (pos 0 ≤ℤ number_at odds.now p) × (number_at odds.now p ≤ℤ pos 4611686018427387903) }
    ensures { IfOk result (λ demands. demands ≡ list_to (pairs_of setting.now) (demand_at setting.now (number_at odds.now))) }
{
    let mut demands = Nums::new(alloc);
    for pair in 0..pair_count(setting) {
        demands.push(demand(setting, odds, pair))?;
    }
    Ok(demands)
}

/// How often a pair asks for the item by its odds, by weight.
pub fn demand(setting: &Setting, odds: &Nums, pair: u32) -> i128
    requires one_each { length odds.now ≡ pairs_of setting.now }
    requires small { (p : ℕ) → p < pairs_of setting.now → (pos 0 ≤ℤ number_at odds.now p) × (number_at odds.now p ≤ℤ pos 4611686018427387903) }
    requires pair_in { pair < pairs_of setting.now }
    ensures { result ≡ demand_at setting.now (number_at odds.now) pair }
{
    product(marginal_at(setting, pair), odds.get(pair as usize))
}

// The pairs of the agents with their types, for all profiles.
fn touches(alloc: Global, setting: &Setting) -> Result<Sets, NoMemory>
    requires { pairs_of setting.now ≤ 12 }
    ensures count { IfOk result (λ sets. length sets ≡ profile_count (sizes_of setting.now)) }
    ensures members { IfOk result (λ sets. (r p : ℕ) → r < length sets → p < pairs_of setting.now → member (slice_index sets r) p ≡ has_at setting.now r p) }
{
    let mut sets = Sets::new(alloc);
    for rank in 0..profiles(setting) {
        sets.push(pairs_at(setting, rank))?;
    }
    Ok(sets)
}

// The set of the pairs of the agents with their types at the profile of a rank.
fn pairs_at(setting: &Setting, rank: u32) -> u32
    requires few { pairs_of setting.now ≤ 12 }
    requires rank_in { rank < profile_count (sizes_of setting.now) }
    ensures { (p : ℕ) → p < pairs_of setting.now → member result p ≡ has_at setting.now rank p }
{
    let mut set = 0;
    for pair in 0..pair_count(setting) {
        set = with(set, pair, has_at(setting, rank, pair));
    }
    set
}

/// Whether the agent of a pair has its type at the profile of a rank.
pub(crate) fn has_at(setting: &Setting, rank: u32, number: u32) -> bool
    requires rank_in { rank < profile_count (sizes_of setting.now) }
    requires number_in { number < pairs_of setting.now }
    ensures { result ≡ has_at setting.now rank number }
{
    let pair = pair_at(setting, number);
    is_type(type_at(setting, rank, pair.agent), pair.kind)
}

fn is_type(left: u8, right: u8) -> bool
    ensures { result ≡ (left == right) }
{
    left == right
}

// A set with one more pair, if a test holds.
fn with(set: u32, pair: u32, test: bool) -> u32
    requires pair { pair < 12 }
    requires set { set < 2 ^ pair }
    ensures size { result < 2 ^ (pair + 1) }
    ensures here { member result pair ≡ test }
    ensures others { (k : ℕ) → k < pair → member result k ≡ member set k }
{
    if test { set | (1u32 << pair) } else { set }
}
