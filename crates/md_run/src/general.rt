//! What is drawn of a mechanism of a general setting.
ghost use Rattle.std.specs.Prelude.{◌≡◌, ◌<◌, ◌↔◌, pos, IsTrue, IfOk, IfErr};
ghost use Rattle.md_math.specs.Lists.{list_to};
ghost use Rattle.md_space.specs.Profiles.{IsProfile};
ghost use Rattle.md_setting.specs.Meaning.{agent_count, outcome_count, sizes_of};
ghost use Rattle.md_mech.specs.Accepted.{IsAccepted};
ghost use Rattle.md_mech.specs.Mechanism.{chance_of, pay_of};
ghost use Rattle.md_run.specs.Lottery.{IsDrawnPlace};
ghost use Rattle.md_run.specs.OfMechanism.{IsDraw, IsDrawnOf};
ghost use Rattle.md_run.specs.Refusals.{IsRefusedBy};

use crate::lottery::drawn_place;
use crate::reports::is_profile;
use crate::{DrawRefusal, Drawn};
use md_mech::Mechanism;
use md_num::{NoMemory, Nums};
use md_setting::Setting;
use std::alloc::Global;

/// What two draws give of a mechanism at a profile.
pub(crate) fn draw_of(
    alloc: Global,
    setting: &Setting,
    mechanism: &Mechanism,
    profile: &[u8],
    d1: i128,
    d2: i128,
) -> Result<Drawn, DrawRefusal>
    requires accepted { IsAccepted setting.now mechanism.now }
    ensures drawn { IfOk result (IsDrawnOf setting.now mechanism.now profile.now d1 d2) }
    ensures refused { IfErr result (IsRefusedBy (IsProfile (sizes_of setting.now) profile.now) (IsDraw mechanism.now.den d1 d2)) }
{
    if !is_profile(setting.space(), profile) {
        return Err(DrawRefusal::Profile);
    }
    if !is_draw(mechanism.den, d1, d2) {
        return Err(DrawRefusal::Draw);
    }
    let outcome = outcome(setting, mechanism, profile, d1);
    let Ok(pays) = pays(alloc, setting, mechanism, profile) else {
        return Err(DrawRefusal::Memory);
    };
    Ok(Drawn {
        outcome,
        pays,
        den: mechanism.den,
    })
}

/// Whether the first draw is one of so many, and the second is 0.
pub(crate) fn is_draw(den: i128, d1: i128, d2: i128) -> bool
    ensures { IsTrue result ↔ IsDraw den d1 d2 }
{
    if d2 != 0 {
        return false;
    }
    0 <= d1 && d1 < den
}

// The outcome of a draw. The chances add to the denominator, so that there is one.
fn outcome(setting: &Setting, mechanism: &Mechanism, profile: &[u8], draw: i128) -> u32
    requires accepted { IsAccepted setting.now mechanism.now }
    requires profile { IsProfile (sizes_of setting.now) profile.now }
    requires draw { IsDraw mechanism.now.den draw (pos 0) }
    ensures { IsDrawnPlace (outcome_count setting.now) (chance_of setting.now mechanism.now profile.now) draw result }
{
    let rank = setting.space().rank(profile);
    match drawn_place(&mechanism.chances, rank, setting.outcomes(), draw) {
        Some(outcome) => outcome,
        None => unreachable!(),
    }
}

// What each agent pays.
fn pays(
    alloc: Global,
    setting: &Setting,
    mechanism: &Mechanism,
    profile: &[u8],
) -> Result<Nums, NoMemory>
    requires accepted { IsAccepted setting.now mechanism.now }
    requires profile { IsProfile (sizes_of setting.now) profile.now }
    ensures { IfOk result (λ pays. pays ≡ list_to (agent_count setting.now) (λ i. pay_of setting.now mechanism.now i profile.now)) }
{
    let mut pays = Nums::new(alloc);
    for agent in 0..setting.space().agents() {
        pays.push(pay(setting, mechanism, profile, agent))?;
    }
    Ok(pays)
}

// What an agent pays.
fn pay(setting: &Setting, mechanism: &Mechanism, profile: &[u8], agent: u8) -> i128
    requires accepted { IsAccepted setting.now mechanism.now }
    requires profile { IsProfile (sizes_of setting.now) profile.now }
    requires agent_in { agent < agent_count setting.now }
    ensures { result ≡ pay_of setting.now mechanism.now agent profile.now }
{
    let space = setting.space();
    let start = space.rank(profile) as usize * usize::from(space.agents());
    mechanism.pays.get(start + usize::from(agent))
}
