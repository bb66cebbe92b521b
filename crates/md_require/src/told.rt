//! Amounts of a mechanism.
ghost use Rattle.std.specs.Prelude.{◌≡◌, ◌+◌, ◌<◌, ◌^◌, ◌*ℤ◌};
ghost use Rattle.md_math.specs.Sizes.{IsWithin};
ghost use Rattle.md_space.specs.Profiles.{profile_count};
ghost use Rattle.md_setting.specs.Meaning.{sizes_of};
ghost use Rattle.md_mech.specs.Accepted.{IsAccepted};
ghost use Rattle.md_require.specs.Amounts.{amount_of};
ghost use Rattle.md_require.specs.Named.{named};
ghost use Rattle.md_require.specs.Parts.{IsScaled, chances_add, pays_add, rank_adds};

use crate::amount::Scaled;
use crate::parts::{scaled_chance, scaled_pay};
use md_mech::{Mechanism, chance, payment};
use md_num::add_product;
use md_setting::Setting;

/// An amount of a mechanism, times the number.
pub(crate) fn told(setting: &Setting, scaled: &Scaled, mechanism: &Mechanism) -> i128
    requires scaled { IsScaled setting.now scaled.now }
    requires accepted { IsAccepted setting.now mechanism.now }
    ensures value { result ≡ scaled.now.scale *ℤ amount_of setting.now mechanism.now (named setting.now scaled.now.amount) }
    ensures size { IsWithin (2 ^ 121) result }
{
    let mut sum = 0;
    for rank in 0..setting.space().profiles() {
        sum += rank_told(setting, scaled, mechanism, rank);
    }
    sum
}

// What the chances and the payments of a rank add.
fn rank_told(setting: &Setting, scaled: &Scaled, mechanism: &Mechanism, rank: u32) -> i128
    requires scaled { IsScaled setting.now scaled.now }
    requires accepted { IsAccepted setting.now mechanism.now }
    requires rank_in { rank < profile_count (sizes_of setting.now) }
    ensures value { result ≡ rank_adds setting.now mechanism.now scaled.now.scale (named setting.now scaled.now.amount) rank }
    ensures size { IsWithin (2 ^ 111) result }
{
    chances_told(setting, scaled, mechanism, rank) + pays_told(setting, scaled, mechanism, rank)
}

// What the chances of a rank add.
fn chances_told(setting: &Setting, scaled: &Scaled, mechanism: &Mechanism, rank: u32) -> i128
    requires scaled { IsScaled setting.now scaled.now }
    requires accepted { IsAccepted setting.now mechanism.now }
    requires rank_in { rank < profile_count (sizes_of setting.now) }
    ensures value { result ≡ chances_add setting.now mechanism.now scaled.now.scale (named setting.now scaled.now.amount) rank }
    ensures size { IsWithin (2 ^ 110) result }
{
    let mut sum = 0;
    for outcome in 0..setting.outcomes() {
        let part = scaled_chance(setting, scaled, rank, outcome);
        sum = add_product(sum, part, chance(setting, mechanism, rank, outcome));
    }
    sum
}

// What the payments of a rank add.
fn pays_told(setting: &Setting, scaled: &Scaled, mechanism: &Mechanism, rank: u32) -> i128
    requires scaled { IsScaled setting.now scaled.now }
    requires accepted { IsAccepted setting.now mechanism.now }
    requires rank_in { rank < profile_count (sizes_of setting.now) }
    ensures value { result ≡ pays_add setting.now mechanism.now scaled.now.scale (named setting.now scaled.now.amount) rank }
    ensures size { IsWithin (2 ^ 110) result }
{
    let mut sum = 0;
    for agent in 0..setting.space().agents() {
        let part = scaled_pay(setting, scaled, rank, agent);
        sum = add_product(sum, part, payment(setting, mechanism, agent, rank));
    }
    sum
}
