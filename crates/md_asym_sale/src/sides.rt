//! How often the item can go to one of a set of pairs.
ghost use Rattle.std.specs.Prelude.{◌≡◌, ◌≤◌, ◌<◌, ◌^◌, pos, slice_index, if◌then◌else◌};
ghost use Rattle.md_math.specs.Sets.{member};
ghost use Rattle.md_math.specs.Sizes.{IsWithin};
ghost use Rattle.md_space.specs.Profiles.{profile_count, profile_at};
ghost use Rattle.md_setting.specs.Meaning.{agent_count, sizes_of, weight_of};
ghost use Rattle.md_asym_sale.specs.Pairs.{pair_number};
ghost use Rattle.md_asym_sale.specs.Sides.{has_some, right_of};
ghost use Rattle.md_asym_sale.specs.Values.{pairs_of};

use crate::pairs::pair_number;
use crate::shape::{agents, profiles, type_at};
use md_setting::Setting;

/// The weight of the profiles with some pair in a set. Sets are numbers: the bit of a pair's number is 1 where the set has the pair.
pub fn right_side(setting: &Setting, set: u32) -> i128
    requires { pairs_of setting.now ≤ 12 }
    ensures value { result ≡ right_of setting.now set }
    ensures size { IsWithin (2 ^ 44) result }
{
    let mut sum = 0;
    for rank in 0..profiles(setting) {
        sum += weight_where(setting, set, rank);
    }
    sum
}

// The weight of the profile of a rank, if some pair of it is in the set.
fn weight_where(setting: &Setting, set: u32, rank: u32) -> i128
    requires few { pairs_of setting.now ≤ 12 }
    requires rank_in { rank < profile_count (sizes_of setting.now) }
    ensures value { result ≡ (if has_some setting.now set (profile_at (sizes_of setting.now) rank) then weight_of setting.now (profile_at (sizes_of setting.now) rank) else pos 0) }
    ensures size { IsWithin 1000000 result }
{
    if has_some(setting, set, rank) {
        setting.weight(rank)
    } else {
        0
    }
}

// Whether some pair of the profile of a rank is in a set.
fn has_some(setting: &Setting, set: u32, rank: u32) -> bool
    requires few { pairs_of setting.now ≤ 12 }
    requires rank_in { rank < profile_count (sizes_of setting.now) }
    ensures { result ≡ has_some setting.now set (profile_at (sizes_of setting.now) rank) }
{
    for agent in 0..agents(setting) {
        if has_pair_of(setting, set, rank, agent) {
            return true;
        }
    }
    false
}

// Whether the pair of an agent and its type at the profile of a rank is in a set.
fn has_pair_of(setting: &Setting, set: u32, rank: u32, agent: u8) -> bool
    requires few { pairs_of setting.now ≤ 12 }
    requires rank_in { rank < profile_count (sizes_of setting.now) }
    requires agent_in { agent < agent_count setting.now }
    ensures { result ≡ member set (pair_number (sizes_of setting.now) agent (slice_index (profile_at (sizes_of setting.now) rank) agent)) }
{
    let kind = type_at(setting, rank, agent);
    has_pair(set, pair_number(setting, agent, kind))
}

/// Whether a set has the pair with a number.
#[tactic(auto, unfolding(md_math::specs::Sets::member))]
pub fn has_pair(set: u32, number: u32) -> bool
    requires { number < 12 }
    ensures { result ≡ member set number }
{
    (set >> number) % 2 == 1
}
