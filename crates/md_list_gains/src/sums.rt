//! What values weigh, gain and bring in welfare together.
ghost use Rattle.std.specs.Prelude.{◌≡◌, ◌<◌, ◌^◌, length, slice_index_or, pos, ◌-ℤ◌, ◌*ℤ◌};
ghost use Rattle.md_list.specs.ByRule.{growth};
ghost use Rattle.md_list_gains.specs.Places.{AreWithin, IsCurve, weight_to, gain_to, benefit_to, more_gain_by, more_benefit_by};

use md_num::cross_difference;

/// What some values of a group add up to.
#[derive(Clone, Copy)]
pub struct Sums {
    /// Their weights.
    pub weight: i64,
    /// Their gains.
    pub gain: i64,
    /// Their benefits.
    pub benefit: i64,
}

/// What the values from one place up to another add up to, by what those below each place do.
pub fn between(places: &[Sums], first: usize, stop: usize) -> Sums
    requires curve { IsCurve places.now }
    requires first { first < length places.now }
    requires stop { stop < length places.now }
    ensures weight { result.weight ≡ growth (weight_to places.now) first stop }
    ensures gain { result.gain ≡ growth (gain_to places.now) first stop }
    ensures benefit { result.benefit ≡ growth (benefit_to places.now) first stop }
    ensures size { AreWithin (2 ^ 59) result }
{
    let from = places[first];
    let to = places[stop];
    Sums {
        weight: to.weight - from.weight,
        gain: to.gain - from.gain,
        benefit: to.benefit - from.benefit,
    }
}

/// By how much the virtual value of some values exceeds that of others, times the weights of both.
pub fn more_gain(sums: Sums, other: Sums) -> i128
    requires size { AreWithin (2 ^ 59) sums }
    requires other_size { AreWithin (2 ^ 59) other }
    ensures { result ≡ more_gain_by sums other }
{
    cross_difference(
        i128::from(sums.gain),
        i128::from(other.weight),
        i128::from(other.gain),
        i128::from(sums.weight),
    )
}

/// By how much the mean value of some values exceeds that of others, times the weights of both.
pub fn more_benefit(sums: Sums, other: Sums) -> i128
    requires size { AreWithin (2 ^ 59) sums }
    requires other_size { AreWithin (2 ^ 59) other }
    ensures { result ≡ more_benefit_by sums other }
{
    cross_difference(
        i128::from(sums.benefit),
        i128::from(other.weight),
        i128::from(other.benefit),
        i128::from(sums.weight),
    )
}
