//! What is drawn of a profile table of a sale.
ghost use Rattle.std.specs.Prelude.{◌≡◌, ◌<◌, ℤ, pos, ◌≤ℤ◌, IfOk, IfErr, length, slice_index};
ghost use Rattle.md_math.specs.Lists.{list_to, number_at};
ghost use Rattle.md_space.specs.Profiles.{IsProfile};
ghost use Rattle.md_setting.specs.Meaning.{agent_count, sizes_of};
ghost use Rattle.md_asym_sale.specs.Pairs.{pair_number};
ghost use Rattle.md_asym_sale.specs.Sale.{IsSale};
ghost use Rattle.md_asym_sale.specs.Values.{pairs_of};
ghost use Rattle.md_asym_tables.specs.Odds.{AreOdds};
ghost use Rattle.md_asym_tables.specs.Tables.{IsProfileTable};
ghost use Rattle.md_run.specs.OfMechanism.{IsDraw};
ghost use Rattle.md_run.specs.OfSale.{AreSaleLotteries, IsSaleDrawn, IsSaleOutcome, cap_for};
ghost use Rattle.md_run.specs.Refusals.{IsRefusedBy};

use crate::general::is_draw;
use crate::lottery::drawn_place;
use crate::reports::is_profile;
use crate::{DrawRefusal, Drawn};
use md_asym_sale::{agents, pair_number};
use md_border::Interim;
use md_num::{NoMemory, Nums, product};
use md_setting::Setting;
use std::alloc::Global;

/// Who gets the item of a sale by two draws at a profile of reports, and what each agent then pays, by the mechanism of a profile
/// table.
///
/// The first draw is one of as many as the denominator times the weight of the profile has units, from 0 on. It gives the first
/// agent, in their order, whose masses at the profile, up to its own, add to more than the draw. The outcome is 0 where there is
/// none, and the item is kept, and else one more than the number of the agent, counted from 0. The second draw is 0. Each agent
/// pays what its type pays, whoever has the item.
pub fn draw_sale(
    alloc: Global,
    setting: &Setting,
    interim: &Interim,
    masses: &Nums,
    profile: &[u8],
    d1: i128,
    d2: i128,
) -> Result<Drawn, DrawRefusal>
    requires sale { IsSale setting.now }
    requires odds { AreOdds setting.now interim.now.den interim.now.odds }
    requires one_pay { length interim.now.pays ≡ pairs_of setting.now }
    requires masses { IsProfileTable setting.now interim.now.den masses.now }
    ensures drawn { IfOk result (IsSaleDrawn setting.now interim.now masses.now profile.now d1 d2) }

    // The first reason not to draw is told.
    ensures refused { IfErr result (IsRefusedBy (IsProfile (sizes_of setting.now) profile.now) (IsDraw (cap_for setting.now interim.now.den profile.now) d1 d2)) }

    // Over all draws that may be, each agent gets the item as often as its mass says.
    ensures lottery { AreSaleLotteries setting.now interim.now.den masses.now }
{
    draw_of_table(alloc, setting, interim, masses, profile, d1, d2)
}

// What two draws give of a profile table at a profile.
fn draw_of_table(
    alloc: Global,
    setting: &Setting,
    interim: &Interim,
    masses: &Nums,
    profile: &[u8],
    d1: i128,
    d2: i128,
) -> Result<Drawn, DrawRefusal>
    requires odds { AreOdds setting.now interim.now.den interim.now.odds }
    requires one_pay { length interim.now.pays ≡ pairs_of setting.now }
    requires masses { IsProfileTable setting.now interim.now.den masses.now }
    ensures drawn { IfOk result (IsSaleDrawn setting.now interim.now masses.now profile.now d1 d2) }
    ensures refused { IfErr result (IsRefusedBy (IsProfile (sizes_of setting.now) profile.now) (IsDraw (cap_for setting.now interim.now.den profile.now) d1 d2)) }
{
    if !is_profile(setting.space(), profile) {
        return Err(DrawRefusal::Profile);
    }
    if !is_draw(cap(setting, interim.den, profile), d1, d2) {
        return Err(DrawRefusal::Draw);
    }
    let outcome = outcome(setting, masses, profile, d1);
    let Ok(pays) = pays(alloc, setting, interim, profile) else {
        return Err(DrawRefusal::Memory);
    };
    Ok(Drawn {
        outcome,
        pays,
        den: interim.den,
    })
}

// What there is to give at a profile.
fn cap(setting: &Setting, den: i128, profile: &[u8]) -> i128
    requires den_small { (pos 1 ≤ℤ den) × (den ≤ℤ pos 4611686018427387903) }
    requires profile { IsProfile (sizes_of setting.now) profile.now }
    ensures { result ≡ cap_for setting.now den profile.now }
{
    let rank = setting.space().rank(profile);
    product(den, setting.weight(rank))
}

// Who gets the item, or that it is kept.
fn outcome(setting: &Setting, masses: &Nums, profile: &[u8], draw: i128) -> u32
    requires profile { IsProfile (sizes_of setting.now) profile.now }
    requires masses { (den : ℤ) × IsProfileTable setting.now den masses.now }
    requires from { pos 0 ≤ℤ draw }
    ensures { IsSaleOutcome setting.now masses.now profile.now draw result }
{
    let rank = setting.space().rank(profile);
    match drawn_place(masses, rank, u32::from(agents(setting)), draw) {
        Some(agent) => agent + 1,
        None => 0,
    }
}

// What each agent pays.
fn pays(
    alloc: Global,
    setting: &Setting,
    interim: &Interim,
    profile: &[u8],
) -> Result<Nums, NoMemory>
    requires one_pay { length interim.now.pays ≡ pairs_of setting.now }
    requires profile { IsProfile (sizes_of setting.now) profile.now }
    ensures { IfOk result (λ pays. pays ≡ list_to (agent_count setting.now) (λ i. number_at interim.now.pays (pair_number (sizes_of setting.now) i (slice_index profile.now i)))) }
{
    let mut pays = Nums::new(alloc);
    for agent in 0..agents(setting) {
        pays.push(pay(setting, interim, profile, agent))?;
    }
    Ok(pays)
}

// What an agent pays: what its type does.
fn pay(setting: &Setting, interim: &Interim, profile: &[u8], agent: u8) -> i128
    requires one_pay { length interim.now.pays ≡ pairs_of setting.now }
    requires profile { IsProfile (sizes_of setting.now) profile.now }
    requires agent_in { agent < agent_count setting.now }
    ensures { result ≡ number_at interim.now.pays (pair_number (sizes_of setting.now) agent (slice_index profile.now agent)) }
{
    let pair = pair_number(setting, agent, profile[usize::from(agent)]);
    interim.pays.get(pair as usize)
}
