//! Whether records stand in the order of what they bring.
ghost use Rattle.std.specs.Prelude.{◌≡◌, ◌<◌, ◌↔◌, ◌^◌, IsTrue, length, IfOk, MatchOption};
ghost use Rattle.md_math.specs.FirstFailure.{HoldsBelow, IsFirstFailure};
ghost use Rattle.md_list.specs.Ranks.{IsList};
ghost use Rattle.md_list.specs.Lists.{ranks_of, rank_of};
ghost use Rattle.md_list_gains.specs.GroupSums.{AreRankSums};
ghost use Rattle.md_list_check.specs.ListSums.{IsRecord, AreListSums, AreSmall};
ghost use Rattle.md_list_check.specs.Levels.{AreLevels, IsLevel};
ghost use Rattle.md_list_check.specs.Orders.{BringsSomeBy, IsNoLessBy, IsInOrderBy};
ghost use Rattle.md_list_gains.specs.Places.{AreWithin};
ghost use Rattle.md_list_check.specs.Verdicts.{IsInOrder};

use crate::ranks::rank_at;
use md_list::Ranked;
use md_list_gains::{Sums, between, more_benefit, places};
use md_num::{Frac, NoMemory, cross_difference};
use md_setting::GroupedAuction;
use std::alloc::Global;

/// The first place of a record that brings nothing, or more than the one before it.
pub(crate) fn order_fault(
    alloc: Global,
    auction: &GroupedAuction,
    ranks: &[Ranked],
    levels: &[Frac],
) -> Result<Option<usize>, NoMemory>
    requires form { IsList auction.now (ranks_of ranks.now) }
    requires one_each { length levels.now ≡ length ranks.now }
    requires levels { AreLevels levels.now }
    ensures { IfOk result (λ fault. MatchOption fault (HoldsBelow (length ranks.now) (IsInOrder auction.now (ranks_of ranks.now) levels.now)) (IsFirstFailure (length ranks.now) (IsInOrder auction.now (ranks_of ranks.now) levels.now))) }
{
    let sums = list_sums(alloc, auction, ranks)?;
    Ok(first_unordered(&sums, levels))
}

// What the values of each record add up to.
fn list_sums(
    alloc: Global,
    auction: &GroupedAuction,
    ranks: &[Ranked],
) -> Result<Vec<Sums>, NoMemory>
    requires { IsList auction.now (ranks_of ranks.now) }
    ensures sums { IfOk result (λ sums. AreListSums auction.now (ranks_of ranks.now) sums.items) }
    ensures long { IfOk result (λ sums. length sums.items ≡ length ranks.now) }
{
    let mut sums = Vec::new(alloc);
    for place in 0..ranks.len() {
        sums.push(rank_sums(alloc, auction, rank_at(ranks, place))?)?;
    }
    Ok(sums)
}

// What the values of a record add up to.
fn rank_sums(alloc: Global, auction: &GroupedAuction, rank: Ranked) -> Result<Sums, NoMemory>
    requires { IsRecord auction.now (rank_of rank) }
    ensures { IfOk result (AreRankSums auction.now (rank_of rank)) }
{
    let places = places(alloc, auction, rank.group)?;
    Ok(between(&places, rank.first, rank.stop))
}

// The first place of a record that is not in order.
fn first_unordered(sums: &[Sums], levels: &[Frac]) -> Option<usize>
    requires small { AreSmall sums.now }
    requires one_each { length levels.now ≡ length sums.now }
    requires levels { AreLevels levels.now }
    ensures { MatchOption result (HoldsBelow (length sums.now) (IsInOrderBy sums.now levels.now)) (IsFirstFailure (length sums.now) (IsInOrderBy sums.now levels.now)) }
{
    for place in 0..sums.len() {
        if !is_in_order(sums, levels, place) {
            return Some(place);
        }
    }
    None
}

// Whether the record at a place brings something, and no more than the one before it.
fn is_in_order(sums: &[Sums], levels: &[Frac], place: usize) -> bool
    requires small { AreSmall sums.now }
    requires one_each { length levels.now ≡ length sums.now }
    requires levels { AreLevels levels.now }
    requires place { place < length sums.now }
    ensures { IsTrue result ↔ IsInOrderBy sums.now levels.now place }
{
    if !brings_some(&sums[place], &levels[place]) {
        return false;
    }
    if place == 0 {
        return true;
    }
    is_no_less(
        sums[place - 1],
        &levels[place - 1],
        sums[place],
        &levels[place],
    )
}

// Whether a record brings something, or nothing and no welfare below 0.
fn brings_some(sums: &Sums, level: &Frac) -> bool
    ensures { IsTrue result ↔ BringsSomeBy sums.now level.now }
{
    level.num > 0 || (level.num == 0 && sums.benefit >= 0)
}

// Whether a record brings no less than another one by weight.
fn is_no_less(sums: Sums, level: &Frac, other: Sums, lower: &Frac) -> bool
    requires size { AreWithin (2 ^ 59) sums }
    requires other_size { AreWithin (2 ^ 59) other }
    requires level { IsLevel level.now }
    requires lower { IsLevel lower.now }
    ensures { IsTrue result ↔ IsNoLessBy sums level.now other lower.now }
{
    let gain = cross_difference(level.num, lower.den, lower.num, level.den);
    if gain > 0 {
        return true;
    }
    if gain < 0 {
        return false;
    }
    more_benefit(sums, other) >= 0
}
