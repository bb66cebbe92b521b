//! Which cuts hold with equality.
ghost use Rattle.std.specs.Prelude.{◌≡◌, ◌≤◌, ◌<◌, ◌^◌, ◌++◌, pos, ◌*ℤ◌, ◌==◌, ℤ, ◌-ℤ◌, unsigned_abs, IfOk, OnOk, if◌then◌else◌};
ghost use Rattle.md_math.specs.Lists.{number_at};
ghost use Rattle.md_math.specs.Sets.{member};
ghost use Rattle.md_math.specs.Sizes.{IsWithin};
ghost use Rattle.md_asym_sale.specs.Sides.{demand_at, demands_in, right_of};
ghost use Rattle.md_asym_sale.specs.Values.{pairs_of};
ghost use Rattle.md_asym_tables.specs.Odds.{AreOdds};
ghost use Rattle.md_sale_report.specs.TightCuts.{is_tight_cut, tight_cut, tight_cuts};

use md_asym_sale::{has_pair, marginal_at, pair_count, right_side};
use md_lp::Sets;
use md_num::{NoMemory, Nums, product};
use md_setting::Setting;
use std::alloc::Global;

/// The cuts of a list that hold with equality by odds over a denominator, in their order.
pub(crate) fn tight_cuts(
    alloc: Global,
    setting: &Setting,
    den: i128,
    odds: &Nums,
    sets: &Sets,
) -> Result<Vec<u32>, NoMemory>
    requires few { pairs_of setting.now ≤ 12 }
    requires odds { AreOdds setting.now den odds.now }
    ensures { IfOk result (λ tight. tight.items ≡ tight_cuts setting.now den odds.now sets.now) }
{
    let mut tight = Vec::new(alloc);
    for place in 0..sets.len() {
        push_if_tight(&mut tight, setting, den, odds, sets.get(place))?;
    }
    Ok(tight)
}

// Adds a cut where it holds with equality.
fn push_if_tight(
    tight: &mut Vec<u32>,
    setting: &Setting,
    den: i128,
    odds: &Nums,
    set: u32,
) -> Result<(), NoMemory>
    requires few { pairs_of setting.now ≤ 12 }
    requires odds { AreOdds setting.now den odds.now }
    ensures { OnOk result (tight.new.items ≡ tight.old.items ++ tight_cut setting.now den odds.now set) }
{
    if is_tight(setting, den, odds, set) {
        tight.push(set)?;
    }
    Ok(())
}

// Whether the pairs of a set ask for the item exactly as often as it can go to one of them.
fn is_tight(setting: &Setting, den: i128, odds: &Nums, set: u32) -> bool
    requires few { pairs_of setting.now ≤ 12 }
    requires odds { AreOdds setting.now den odds.now }
    ensures { result ≡ is_tight_cut setting.now den odds.now set }
{
    is_same(
        demands(setting, den, odds, set),
        most(setting, den, odds, set),
    )
}

fn is_same(left: i128, right: i128) -> bool
    requires left { IsWithin (2 ^ 110) left }
    requires right { IsWithin (2 ^ 110) right }
    ensures { result ≡ (unsigned_abs (left -ℤ right) == 0) }
{
    left == right
}

// How often the item can go to one of the pairs of a set, in units of one over the denominator.
fn most(setting: &Setting, den: i128, odds: &Nums, set: u32) -> i128
    requires few { pairs_of setting.now ≤ 12 }
    requires odds { AreOdds setting.now den odds.now }
    ensures value { result ≡ den *ℤ right_of setting.now set }
    ensures size { IsWithin (2 ^ 110) result }
{
    product(den, right_side(setting, set))
}

// How often the pairs of a set ask for the item, in the same units.
fn demands(setting: &Setting, den: i128, odds: &Nums, set: u32) -> i128
    requires few { pairs_of setting.now ≤ 12 }
    requires odds { AreOdds setting.now den odds.now }
    ensures value { result ≡ demands_in setting.now (number_at odds.now) set }
    ensures size { IsWithin (2 ^ 110) result }
{
    let mut sum = 0;
    for pair in 0..pair_count(setting) {
        sum += demand_where(setting, den, odds, set, pair);
    }
    sum
}

// How often a pair asks for it, if it is in the set.
fn demand_where(setting: &Setting, den: i128, odds: &Nums, set: u32, pair: u32) -> i128
    requires few { pairs_of setting.now ≤ 12 }
    requires odds { AreOdds setting.now den odds.now }
    requires pair_in { pair < pairs_of setting.now }
    ensures value { result ≡ (if member set pair then demand_at setting.now (number_at odds.now) pair else pos 0) }
    ensures size { IsWithin (2 ^ 106) result }
{
    if has_pair(set, pair) {
        product(marginal_at(setting, pair), odds.get(pair as usize))
    } else {
        0
    }
}
