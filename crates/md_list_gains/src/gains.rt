//! What the values of a group weigh, gain and bring in welfare.
ghost use Rattle.std.specs.Prelude.{◌≡◌, suc, ◌<◌, ◌≤◌, ◌^◌, ◌+ℤ◌, ◌-ℤ◌, ◌*ℤ◌, length, IfOk};
ghost use Rattle.md_math.specs.Lists.{number_at};
ghost use Rattle.md_math.specs.Sizes.{IsWithin};
ghost use Rattle.md_setting.specs.Grouped.{group_at};
ghost use Rattle.md_setting.specs.GroupedShaped.{IsGroupedAuction};
ghost use Rattle.md_list.specs.Gains.{weight_in, weight_from, gain_of, benefit_of};
ghost use Rattle.md_list_gains.specs.Places.{IsCurve};
ghost use Rattle.md_list_gains.specs.GroupSums.{AreSumsTo, AreSumsOf};
ghost use Rattle.md_list_gains.specs.Surplus.{surplus_of, paid_from};

use crate::sums::Sums;
use md_num::NoMemory;
use md_setting::GroupedAuction;
use std::alloc::Global;

/// What the values of a group below each place add up to.
pub fn places(alloc: Global, auction: &GroupedAuction, group: u32) -> Result<Vec<Sums>, NoMemory>
    requires { group < length auction.now.groups }
    ensures sums { IfOk result (λ places. AreSumsOf auction.now group places.items) }
    ensures curve { IfOk result (λ places. IsCurve places.items) }
{
    let mut sums = Sums {
        weight: 0,
        gain: 0,
        benefit: 0,
    };
    let mut places = Vec::new(alloc);
    places.push(sums)?;
    for value in 0..auction.values(group).len() {
        sums = with_value(auction, group, value, sums);
        places.push(sums)?;
    }
    Ok(places)
}

// The sums with those of one value more.
fn with_value(auction: &GroupedAuction, group: u32, value: usize, below: Sums) -> Sums
    requires group { group < length auction.now.groups }
    requires value { value < length (group_at auction.now group).values }
    requires below { AreSumsTo auction.now group value below }
    ensures { AreSumsTo auction.now group (suc value) result }
{
    Sums {
        weight: below.weight + weight(auction, group, value),
        gain: below.gain + gain(auction, group, value),
        benefit: below.benefit + benefit(auction, group, value),
    }
}

// The weight of a value.
fn weight(auction: &GroupedAuction, group: u32, value: usize) -> i64
    requires group { group < length auction.now.groups }
    requires value { value < length (group_at auction.now group).values }
    ensures value { result ≡ weight_in (group_at auction.now group) value }
    ensures shaped { IsGroupedAuction auction.now }
{
    auction.weights(group)[value]
}

// What a value brings in welfare, times its weight.
fn benefit(auction: &GroupedAuction, group: u32, value: usize) -> i64
    requires group { group < length auction.now.groups }
    requires value { value < length (group_at auction.now group).values }
    ensures value { result ≡ benefit_of (group_at auction.now group) value }
    ensures shaped { IsGroupedAuction auction.now }
{
    weight(auction, group, value) * auction.values(group)[value]
}

// What a value brings the designer, times its weight.
fn gain(auction: &GroupedAuction, group: u32, value: usize) -> i64
    requires group { group < length auction.now.groups }
    requires value { value < length (group_at auction.now group).values }
    ensures value { result ≡ gain_of auction.now (group_at auction.now group) value }
    ensures shaped { IsGroupedAuction auction.now }
{
    own(auction, group, value)
        + auction.revenue()
            * (paid_from(auction, group, value) - paid_from(auction, group, value + 1))
}

// What the designer has of the units of bidders with a value, more than where nobody gets them, times its weight.
fn own(auction: &GroupedAuction, group: u32, value: usize) -> i64
    requires group { group < length auction.now.groups }
    requires value { value < length (group_at auction.now group).values }
    ensures value { result
        ≡ weight_in (group_at auction.now group) value *ℤ surplus_of auction.now (group_at auction.now group) value }
    ensures shaped { IsGroupedAuction auction.now }
{
    weight(auction, group, value) * surplus(auction, group, value)
}

// What the designer has of a unit that a bidder with a value gets, more than where nobody gets it.
fn surplus(auction: &GroupedAuction, group: u32, value: usize) -> i64
    requires group { group < length auction.now.groups }
    requires value { value < length (group_at auction.now group).values }
    ensures value { result ≡ surplus_of auction.now (group_at auction.now group) value }
    ensures shaped { IsGroupedAuction auction.now }
{
    auction.welfare() * auction.values(group)[value] + auction.worth(group) - auction.keep()
}

// What all with a value or a higher one pay where each pays this value, times their weights; none stand behind the last.
fn paid_from(auction: &GroupedAuction, group: u32, value: usize) -> i64
    requires group { group < length auction.now.groups }
    requires value { value ≤ length (group_at auction.now group).values }
    ensures value { result ≡ paid_from (group_at auction.now group) value }
    ensures shaped { IsGroupedAuction auction.now }
{
    let values = auction.values(group);
    if value == values.len() {
        return 0;
    }
    values[value] * weight_from(auction, group, value)
}

// What a value and all above it weigh.
fn weight_from(auction: &GroupedAuction, group: u32, value: usize) -> i64
    requires group { group < length auction.now.groups }
    requires value { value < length (group_at auction.now group).values }
    ensures value { result ≡ weight_from (group_at auction.now group) value }
    ensures shaped { IsGroupedAuction auction.now }
{
    let weights = auction.weights(group);
    let mut sum = 0;
    for place in value..weights.len() {
        sum += weights[place];
    }
    sum
}
