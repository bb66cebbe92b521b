//! Sums of the masses of profile tables.
ghost use Rattle.std.specs.Prelude.{◌≡◌, ◌*◌, ◌<◌, ◌^◌, length};
ghost use Rattle.md_math.specs.Sizes.{AllWithin, IsWithin};
ghost use Rattle.md_space.specs.Profiles.{profile_count};
ghost use Rattle.md_setting.specs.Meaning.{agent_count, sizes_of};
ghost use Rattle.md_asym_sale.specs.Values.{pairs_of};
ghost use Rattle.md_asym_tables.specs.Tables.{mass_of, mass_where};

use crate::pair_net::has_at;
use md_asym_sale::{agents, pair_at, profiles};
use md_num::Nums;
use md_setting::Setting;

/// What the masses of a pair add to: those of its agent at the profiles in which it has the pair's type.
pub fn mass_sum(setting: &Setting, masses: &Nums, number: u32) -> i128
    requires one_each { length masses.now ≡ profile_count (sizes_of setting.now) * agent_count setting.now }
    requires sizes { AllWithin (2 ^ 82) masses.now }
    requires number_in { number < pairs_of setting.now }
    ensures { result ≡ mass_of setting.now masses.now number }
{
    let mut sum = 0;
    for rank in 0..profiles(setting) {
        sum += mass_where(setting, masses, rank, number);
    }
    sum
}

// The mass of a pair at the profile of a rank: that of its agent where it has the pair's type.
fn mass_where(setting: &Setting, masses: &Nums, rank: u32, number: u32) -> i128
    requires one_each { length masses.now ≡ profile_count (sizes_of setting.now) * agent_count setting.now }
    requires sizes { AllWithin (2 ^ 82) masses.now }
    requires rank_in { rank < profile_count (sizes_of setting.now) }
    requires number_in { number < pairs_of setting.now }
    ensures value { result ≡ mass_where setting.now masses.now number rank }
    ensures size { IsWithin (2 ^ 82) result }
{
    if !has_at(setting, rank, number) {
        return 0;
    }
    let agent = u32::from(pair_at(setting, number).agent);
    let place = rank * u32::from(agents(setting)) + agent;
    masses.get(place as usize)
}
