//! Whether numbers are interim odds of a sale.
ghost use Rattle.std.specs.Prelude.{pos, ◌↔◌, ◌≤ℤ◌, IsTrue};
ghost use Rattle.md_asym_tables.specs.Odds.{AreOdds};
ghost use Rattle.md_asym_tables.specs.Tested.{AreWithin};

use md_asym_sale::pair_count;
use md_num::Nums;
use md_setting::Setting;

/// Whether numbers are interim odds of a sale over a denominator: one for each pair, from 0 to the denominator, which is 1 to
/// 2^62 - 1. It takes no memory.
pub fn are_odds(setting: &Setting, den: i128, odds: &Nums) -> bool
    ensures { IsTrue result ↔ AreOdds setting.now den odds.now }
{
    if !is_denominator(den) {
        return false;
    }
    if odds.len() != pair_count(setting) as usize {
        return false;
    }
    are_within(odds, den)
}

fn is_denominator(den: i128) -> bool
    ensures { IsTrue result ↔ ((pos 1 ≤ℤ den) × (den ≤ℤ pos 4611686018427387903)) }
{
    den >= 1 && den <= 4611686018427387903
}

// Whether all numbers are from 0 to the denominator.
fn are_within(odds: &Nums, den: i128) -> bool
    ensures { IsTrue result ↔ AreWithin den odds.now }
{
    for place in 0..odds.len() {
        if !is_within(odds.get(place), den) {
            return false;
        }
    }
    true
}

fn is_within(number: i128, den: i128) -> bool
    ensures { IsTrue result ↔ ((pos 0 ≤ℤ number) × (number ≤ℤ den)) }
{
    number >= 0 && number <= den
}
