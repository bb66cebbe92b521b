//! What a mechanism is worth to the designer.
ghost use Rattle.std.specs.Prelude.{◌≡◌, ◌<◌, ◌-◌, ◌^◌, pos, ◌<ℤ◌, ◌*ℤ◌};
ghost use Rattle.md_math.specs.Sizes.{IsWithin};
ghost use Rattle.md_math.specs.Sums.{sum_to};
ghost use Rattle.md_space.specs.Profiles.{profile_count, profile_at};
ghost use Rattle.md_setting.specs.Meaning.{outcome_count, sizes_of, total_of, value_of};
ghost use Rattle.md_mech.specs.Accepted.{IsAccepted};
ghost use Rattle.md_mech.specs.Mechanism.{chance_of};
ghost use Rattle.md_mech.specs.Optimal.{objective_at, worth_of};
ghost use Rattle.md_mech.specs.Value.{IsValueOf};

use crate::Mechanism;
use crate::utilities::{chance, payments};
use md_num::{Frac, add_product, product};
use md_setting::Setting;

/// The designer's expected objective, in least terms: what the designer gets over all profiles by weight, over
/// the denominator times the weight of all profiles.
pub fn worth(setting: &Setting, mechanism: &Mechanism) -> Frac
    requires { IsAccepted setting.now mechanism.now }
    ensures value { IsValueOf setting.now mechanism.now result }
    ensures num_size { IsWithin (2 ^ 126 - 1) result.num }
    ensures den_size { IsWithin (2 ^ 126 - 1) result.den }
{
    Frac::reduced(
        weighted_objective(setting, mechanism),
        whole(setting, mechanism),
    )
}

// The denominator times the weight of all profiles.
fn whole(setting: &Setting, mechanism: &Mechanism) -> i128
    requires { IsAccepted setting.now mechanism.now }
    ensures value { result ≡ mechanism.now.den *ℤ total_of setting.now }
    ensures positive { pos 0 <ℤ result }
    ensures size { IsWithin (2 ^ 82) result }
{
    product(mechanism.den, setting.total())
}

// What the designer gets over all profiles by weight.
fn weighted_objective(setting: &Setting, mechanism: &Mechanism) -> i128
    requires { IsAccepted setting.now mechanism.now }
    ensures value { result ≡ worth_of setting.now mechanism.now }
    ensures size { IsWithin (2 ^ 121) result }
{
    let mut sum = 0;
    for rank in 0..setting.space().profiles() {
        sum = add_product(
            sum,
            setting.weight(rank),
            objective(setting, mechanism, rank),
        );
    }
    sum
}

// What the designer gets at the profile of a rank.
fn objective(setting: &Setting, mechanism: &Mechanism, rank: u32) -> i128
    requires accepted { IsAccepted setting.now mechanism.now }
    requires rank_in { rank < profile_count (sizes_of setting.now) }
    ensures value { result ≡ objective_at setting.now mechanism.now (profile_at (sizes_of setting.now) rank) }
    ensures size { IsWithin (2 ^ 91) result }
{
    add_product(
        lottery_value(setting, mechanism, rank),
        setting.revenue(),
        payments(setting, mechanism, rank),
    )
}

// What the lottery at the profile of a rank is worth to the designer.
fn lottery_value(setting: &Setting, mechanism: &Mechanism, rank: u32) -> i128
    requires accepted { IsAccepted setting.now mechanism.now }
    requires rank_in { rank < profile_count (sizes_of setting.now) }
    ensures value { result ≡ sum_to (outcome_count setting.now) (λ o. chance_of setting.now mechanism.now (profile_at (sizes_of setting.now) rank) o *ℤ value_of setting.now (profile_at (sizes_of setting.now) rank) o) }
    ensures size { IsWithin (2 ^ 90) result }
{
    let mut sum = 0;
    for outcome in 0..setting.outcomes() {
        sum = add_product(
            sum,
            chance(setting, mechanism, rank, outcome),
            setting.value(rank, outcome),
        );
    }
    sum
}
