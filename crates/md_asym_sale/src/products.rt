//! Products of the weights that independence compares.
ghost use Rattle.std.specs.Prelude.{◌≡◌, ◌<◌, ◌-◌, ◌^◌, slice_index};
ghost use Rattle.md_math.specs.Sizes.{IsWithin};
ghost use Rattle.md_space.specs.Profiles.{profile_count, profile_at};
ghost use Rattle.md_setting.specs.Meaning.{agent_count, sizes_of, marginal_of, total_of};
ghost use Rattle.md_asym_sale.specs.Products.{product_below};

use crate::shape::{agents, type_at};
use md_num::product;
use md_setting::Setting;

/// The weight of all profiles, as often as there are agents but one.
pub(crate) fn total_of_others(setting: &Setting) -> i128
    ensures value { result ≡ product_below (agent_count setting.now - 1) (λ _. total_of setting.now) }
    ensures size { IsWithin (10 ^ 30) result }
{
    let count = agents(setting);
    let mut power = 1;
    for _ in 0..count - 1 {
        power = product(power, setting.total());
    }
    power
}

/// The product of the weights of all agents' types at the profile of a rank.
pub(crate) fn type_weights(setting: &Setting, rank: u32) -> i128
    requires { rank < profile_count (sizes_of setting.now) }
    ensures value { result ≡ product_below (agent_count setting.now) (λ i. marginal_of setting.now i (slice_index (profile_at (sizes_of setting.now) rank) i)) }
    ensures size { IsWithin (10 ^ 36) result }
{
    let mut weights = 1;
    for agent in 0..agents(setting) {
        let kind = type_at(setting, rank, agent);
        weights = product(weights, setting.marginal(agent, kind));
    }
    weights
}
