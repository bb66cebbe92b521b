//! The mechanism of a point.
ghost use Rattle.std.specs.Prelude.{◌≡◌, ◌<◌, ◌≤◌, ◌++◌, length, IfOk, OnOk};
ghost use Rattle.md_math.specs.Lists.{number_at, list_to};
ghost use Rattle.md_math.specs.Sizes.{IsWithin, AllWithin};
ghost use Rattle.md_space.specs.Profiles.{profile_count, profile_at};
ghost use Rattle.md_setting.specs.Meaning.{agent_count, outcome_count, sizes_of};
ghost use Rattle.md_setting.specs.Rows.{column_count};
ghost use Rattle.md_mech.specs.Accepted.{IsAccepted, number_limit};
ghost use Rattle.md_mech.specs.Admissible.{IsAdmissible};
ghost use Rattle.md_rows.specs.Columns.{first_plus, payment_in};
ghost use Rattle.md_rows.specs.Points.{mechanism_of, payments_in, MeetsProgramOf};

use crate::layout::{first_minus, first_plus};
use md_mech::Mechanism;
use md_num::{NoMemory, Nums};
use md_setting::Setting;
use std::alloc::Global;

/// The mechanism of a point over its denominator: its chances, and for each payment its plus part less its minus part. What the
/// point has behind the setting's columns says nothing of it.
pub fn mechanism_of(
    alloc: Global,
    setting: &Setting,
    den: i128,
    point: &Nums,
) -> Result<Mechanism, NoMemory>
    requires one_each { column_count setting.now ≤ length point.now }
    requires meets { MeetsProgramOf setting.now den (number_at point.now) }
    requires sizes { AllWithin number_limit point.now }
    requires den_size { IsWithin number_limit den }
    ensures value { IfOk result (λ mechanism. mechanism ≡ mechanism_of setting.now den (number_at point.now)) }
    ensures admissible { IfOk result (IsAdmissible setting.now) }
    ensures accepted { IfOk result (IsAccepted setting.now) }
{
    Ok(Mechanism {
        den,
        chances: chances(alloc, setting, point)?,
        pays: payments_of(alloc, setting, point)?,
    })
}

fn chances(alloc: Global, setting: &Setting, point: &Nums) -> Result<Nums, NoMemory>
    requires one_each { column_count setting.now ≤ length point.now }
    ensures { IfOk result (λ chances. chances ≡ list_to (first_plus setting.now) (number_at point.now)) }
{
    let mut chances = Nums::new(alloc);
    for column in 0..first_plus(setting) {
        chances.push(point.get(column as usize))?;
    }
    Ok(chances)
}

/// What agents pay at a point, or by what a ray changes it, by the rank of the profile, then by agent: for each payment its
/// plus part less its minus part.
pub fn payments_of(alloc: Global, setting: &Setting, point: &Nums) -> Result<Nums, NoMemory>
    requires one_each { column_count setting.now ≤ length point.now }
    requires sizes { AllWithin number_limit point.now }
    ensures { IfOk result (λ pays. pays ≡ payments_in setting.now (number_at point.now)) }
{
    let mut pays = Nums::new(alloc);
    for rank in 0..setting.space().profiles() {
        push_pays(setting, point, rank, &mut pays)?;
    }
    Ok(pays)
}

// What all agents pay at the profile of a rank.
fn push_pays(setting: &Setting, point: &Nums, rank: u32, pays: &mut Nums) -> Result<(), NoMemory>
    requires one_each { column_count setting.now ≤ length point.now }
    requires sizes { AllWithin number_limit point.now }
    requires rank_in { rank < profile_count (sizes_of setting.now) }
    ensures { OnOk result (pays.new ≡ pays.old ++ list_to (agent_count setting.now) (λ i. payment_in setting.now (number_at point.now) i (profile_at (sizes_of setting.now) rank))) }
{
    for agent in 0..setting.space().agents() {
        pays.push(pay(setting, point, agent, rank))?;
    }
    Ok(())
}

// What an agent pays at the profile of a rank.
fn pay(setting: &Setting, point: &Nums, agent: u8, rank: u32) -> i128
    requires one_each { column_count setting.now ≤ length point.now }
    requires sizes { AllWithin number_limit point.now }
    requires agent_in { agent < agent_count setting.now }
    requires rank_in { rank < profile_count (sizes_of setting.now) }
    ensures { result ≡ payment_in setting.now (number_at point.now) agent (profile_at (sizes_of setting.now) rank) }
{
    if !setting.payments() {
        return 0;
    }
    let place = u32::from(agent) * setting.space().profiles() + rank;
    let plus = point.get((first_plus(setting) + place) as usize);
    let minus = point.get((first_minus(setting) + place) as usize);
    plus - minus
}
