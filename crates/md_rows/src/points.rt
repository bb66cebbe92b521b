//! The point of a mechanism.
ghost use Rattle.std.specs.Prelude.{◌≡◌, ◌<◌, ◌++◌, ◌≤ℤ◌, pos, length, All, IfOk, OnOk};
ghost use Rattle.md_math.specs.Lists.{list_to};
ghost use Rattle.md_math.specs.Sizes.{IsWithin, AllWithin};
ghost use Rattle.md_space.specs.Profiles.{profile_count, profile_at};
ghost use Rattle.md_setting.specs.Meaning.{agent_count, sizes_of};
ghost use Rattle.md_setting.specs.Rows.{column_count};
ghost use Rattle.md_mech.specs.Accepted.{IsAccepted, number_limit};
ghost use Rattle.md_mech.specs.Mechanism.{pay_of};
ghost use Rattle.md_rows.specs.Law.{ReturnsMechanisms};
ghost use Rattle.md_rows.specs.Parts.{of_part};
ghost use Rattle.md_rows.specs.Points.{point_of, payment_parts, parts};

use md_mech::Mechanism;
use md_num::{NoMemory, Nums};
use md_setting::Setting;
use std::alloc::Global;

/// The point of a mechanism over its denominator: its chances, and where there are payments the positive and the negative
/// part of each, as numbers that are not negative.
pub fn point_of(alloc: Global, setting: &Setting, mechanism: &Mechanism) -> Result<Nums, NoMemory>
    requires { IsAccepted setting.now mechanism.now }
    ensures value { IfOk result (λ point. point ≡ point_of setting.now mechanism.now) }
    ensures one_each { IfOk result (λ point. length point ≡ column_count setting.now) }
    ensures nonneg { IfOk result (All (λ z. pos 0 ≤ℤ z)) }
    ensures sizes { IfOk result (AllWithin number_limit) }

    // The mechanism of the point is the mechanism.
    ensures returns { ReturnsMechanisms setting.now }
{
    let mut point = copy(alloc, &mechanism.chances)?;
    push_payments(setting, mechanism, &mut point)?;
    Ok(point)
}

fn copy(alloc: Global, numbers: &Nums) -> Result<Nums, NoMemory>
    ensures { IfOk result (λ copy. copy ≡ numbers.now) }
{
    let mut copy = Nums::new(alloc);
    for number in numbers.as_slice() {
        copy.push(*number)?;
    }
    Ok(copy)
}

// Which part of a payment is meant.
#[derive(Clone, Copy)]
enum Part {
    Plus,
    Minus,
}

// Both parts of each payment, where there are payments.
fn push_payments(setting: &Setting, mechanism: &Mechanism, point: &mut Nums) -> Result<(), NoMemory>
    requires { IsAccepted setting.now mechanism.now }
    ensures { OnOk result (point.new ≡ point.old ++ payment_parts setting.now.payments setting.now mechanism.now) }
{
    if !setting.payments() {
        return Ok(());
    }
    push_parts(setting, mechanism, Part::Plus, point)?;
    push_parts(setting, mechanism, Part::Minus, point)?;
    Ok(())
}

// One part of each payment.
fn push_parts(
    setting: &Setting,
    mechanism: &Mechanism,
    part: Part,
    point: &mut Nums,
) -> Result<(), NoMemory>
    requires { IsAccepted setting.now mechanism.now }
    ensures { OnOk result (point.new ≡ point.old ++ parts (of_part part) setting.now mechanism.now) }
{
    for agent in 0..setting.space().agents() {
        push_parts_of(setting, mechanism, part, agent, point)?;
    }
    Ok(())
}

// One part of what an agent pays at each profile.
fn push_parts_of(
    setting: &Setting,
    mechanism: &Mechanism,
    part: Part,
    agent: u8,
    point: &mut Nums,
) -> Result<(), NoMemory>
    requires accepted { IsAccepted setting.now mechanism.now }
    requires agent_in { agent < agent_count setting.now }
    ensures { OnOk result (point.new ≡ point.old ++ list_to (profile_count (sizes_of setting.now)) (λ r. of_part part (pay_of setting.now mechanism.now agent (profile_at (sizes_of setting.now) r)))) }
{
    for rank in 0..setting.space().profiles() {
        point.push(part_of(part, pay(setting, mechanism, agent, rank)))?;
    }
    Ok(())
}

// What an agent pays at the profile of a rank.
fn pay(setting: &Setting, mechanism: &Mechanism, agent: u8, rank: u32) -> i128
    requires accepted { IsAccepted setting.now mechanism.now }
    requires agent_in { agent < agent_count setting.now }
    requires rank_in { rank < profile_count (sizes_of setting.now) }
    ensures value { result ≡ pay_of setting.now mechanism.now agent (profile_at (sizes_of setting.now) rank) }
    ensures size { IsWithin number_limit result }
{
    mechanism.pays.get(rank as usize * setting.space().agents() as usize + agent as usize)
}

// One part of a number.
fn part_of(part: Part, number: i128) -> i128
    requires { IsWithin number_limit number }
    ensures { result ≡ of_part part number }
{
    match part {
        Part::Plus => number.max(0),
        Part::Minus => (-number).max(0),
    }
}
