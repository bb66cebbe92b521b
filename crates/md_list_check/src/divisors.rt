//! Sums by weights in least terms.
ghost use Rattle.std.specs.Prelude.{◌≡◌, ◌<◌, ◌^◌, pos, length, ◌*ℤ◌};
ghost use Rattle.md_math.specs.Divisors.{Divides, IsGcdOf, IsGcdOfTwo};
ghost use Rattle.md_math.specs.Lists.{number_at};
ghost use Rattle.md_math.specs.Sizes.{IsWithin};
ghost use Rattle.md_setting.specs.Grouped.{group_at};
ghost use Rattle.md_setting.specs.GroupedRefusals.{divisor_of};

use md_num::{exact_quotient, gcd};
use md_setting::GroupedAuction;

/// A sum by the weights of a group, divided by their greatest common divisor.
pub(crate) fn in_least_terms(auction: &GroupedAuction, group: u32, sum: i128) -> i128
    requires group { group < length auction.now.groups }
    requires exact { Divides (pos (divisor_of (group_at auction.now group).weights)) sum }
    requires size { IsWithin (2 ^ 121) sum }
    ensures { pos (divisor_of (group_at auction.now group).weights) *ℤ result ≡ sum }
{
    exact_quotient(sum, i128::from(group_divisor(auction, group)))
}

// The greatest common divisor of the weights of a group.
fn group_divisor(auction: &GroupedAuction, group: u32) -> u64
    requires { group < length auction.now.groups }
    ensures value { result ≡ divisor_of (group_at auction.now group).weights }
    ensures positive { 0 < result }
{
    divisor_of(auction.weights(group))
}

// The greatest common divisor of some weights.
fn divisor_of(weights: &[i64]) -> u64
    ensures { IsGcdOf (length weights.now) (number_at weights.now) (pos result) }
{
    let mut divisor = 0;
    for weight in weights {
        divisor = common_divisor(divisor, *weight);
    }
    divisor
}

fn common_divisor(divisor: u64, weight: i64) -> u64
    ensures { IsGcdOfTwo (pos divisor) weight (pos result) }
{
    gcd(i128::from(divisor), i128::from(weight)) as u64
}
