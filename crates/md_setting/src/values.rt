//! What outcomes are worth to the designer.
ghost use Rattle.std.specs.Prelude.{◌≡◌, ◌<◌, ◌≤◌, length, unsigned_abs};
ghost use Rattle.md_space.specs.Profiles.{profile_count, profile_at};
ghost use Rattle.md_setting.specs.Setting.{written};
ghost use Rattle.md_setting.specs.Meaning.{outcome_count, sizes_of, value_of};
ghost use Rattle.md_setting.specs.Shaped.{IsListed, IsSmall};
ghost use Rattle.md_setting.specs.Refusals.{all_below, is_small, has_small_values};

use crate::RawSetting;
use crate::lookup::utility_in;
use md_num::add_product;
use md_space::Space;

/// The greatest size of an outcome's value to the designer.
pub const MAX_VALUE: u128 = 10_000_000;

/// What an outcome is worth to the designer at the profile of a rank.
pub(crate) fn value_in(raw: &RawSetting, space: &Space, rank: u32, outcome: usize) -> i128
    requires listed { IsListed (written raw.now) }
    requires small { IsSmall (written raw.now) }
    requires sizes { space.now ≡ sizes_of (written raw.now) }
    requires rank_in { rank < profile_count space.now }
    requires outcome_in { outcome < outcome_count (written raw.now) }
    ensures { result ≡ value_of (written raw.now) (profile_at (sizes_of (written raw.now)) rank) outcome }
{
    let mut value = i128::from(raw.values.as_slice()[outcome]);
    for agent in 0..space.agents() {
        let utility = utility_in(raw, space, agent, rank, outcome);
        value = add_product(value, i128::from(raw.welfare), i128::from(utility));
    }
    value
}

/// Whether each outcome is worth at most the limit in size at each profile.
pub(crate) fn has_small_values(raw: &RawSetting, space: &Space) -> bool
    requires listed { IsListed (written raw.now) }
    requires small { IsSmall (written raw.now) }
    requires sizes { space.now ≡ sizes_of (written raw.now) }
    ensures { result ≡ has_small_values (written raw.now) }
{
    for rank in 0..space.profiles() {
        if !are_small_values(raw, space, rank) {
            return false;
        }
    }
    true
}

fn are_small_values(raw: &RawSetting, space: &Space, rank: u32) -> bool
    requires listed { IsListed (written raw.now) }
    requires small { IsSmall (written raw.now) }
    requires sizes { space.now ≡ sizes_of (written raw.now) }
    requires rank_in { rank < profile_count space.now }
    ensures { result ≡ all_below (outcome_count (written raw.now)) (λ o. is_small 10000000 (value_of (written raw.now) (profile_at (sizes_of (written raw.now)) rank) o)) }
{
    for outcome in 0..raw.outcomes.len() {
        if !is_small(MAX_VALUE, value_in(raw, space, rank, outcome)) {
            return false;
        }
    }
    true
}

fn is_small(limit: u128, number: i128) -> bool
    ensures { result ≡ is_small limit number }
{
    number.unsigned_abs() <= limit
}
