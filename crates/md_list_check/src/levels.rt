//! Whether a record keeps the level that it claims, value by value.
ghost use Rattle.std.specs.Prelude.{◌≡◌, ◌<◌, ◌≤◌, ◌^◌, ◌↔◌, IsTrue, suc, length, MatchOption, IfSome, ◌*ℤ◌};
ghost use Rattle.md_math.specs.Sizes.{IsWithin};
ghost use Rattle.md_list_check.specs.Levels.{IsLevel, weight_side, gain_side, AreKept, KeepsFrom, IsFirstUnkept};
ghost use Rattle.md_list_gains.specs.Places.{IsCurve, weight_to, gain_to};

use md_list_gains::{Sums, between};
use md_num::{Frac, product};

/// A value of a record, with what its values up to there gain, times the denominator of the level, and what they would gain
/// by the level.
#[derive(Clone, Copy)]
pub(crate) struct Sides {
    pub value: usize,
    pub left: i128,
    pub right: i128,
}

/// The first value at which a record does not keep its level.
pub(crate) fn first_unkept(
    places: &[Sums],
    first: usize,
    stop: usize,
    level: &Frac,
) -> Option<Sides>
    requires curve { IsCurve places.now }
    requires some { first < stop }
    requires inside { stop < length places.now }
    requires level { IsLevel level.now }
    ensures value { MatchOption result (KeepsFrom (weight_to places.now) (gain_to places.now) first stop level.now stop) (λ sides. IsFirstUnkept (weight_to places.now) (gain_to places.now) first stop level.now sides.value) }
    ensures sides { IfSome result (λ sides. (sides.left ≡ gain_side (gain_to places.now) first level.now sides.value) × (sides.right ≡ weight_side (weight_to places.now) first level.now sides.value)) }
    ensures sizes { IfSome result (λ sides. IsWithin (2 ^ 121) sides.left × IsWithin (2 ^ 121) sides.right) }
{
    for value in first..stop {
        let sides = sides_at(places, first, value, level);
        if !is_kept(&sides, value + 1 == stop) {
            return Some(sides);
        }
    }
    None
}

// Both sides at a value.
fn sides_at(places: &[Sums], first: usize, value: usize, level: &Frac) -> Sides
    requires curve { IsCurve places.now }
    requires first { first ≤ value }
    requires inside { suc value < length places.now }
    requires level { IsLevel level.now }
    ensures value { result.value ≡ value }
    ensures left { result.left ≡ gain_side (gain_to places.now) first level.now value }
    ensures right { result.right ≡ weight_side (weight_to places.now) first level.now value }
    ensures left_size { IsWithin (2 ^ 121) result.left }
    ensures right_size { IsWithin (2 ^ 121) result.right }
{
    let sums = between(places, first, value + 1);
    Sides {
        value,
        left: times(level.den, sums.gain),
        right: times(level.num, sums.weight),
    }
}

// A number of a level times a sum.
fn times(number: i128, sum: i64) -> i128
    requires number { IsWithin (2 ^ 62) number }
    requires sum { IsWithin (2 ^ 59) sum }
    ensures value { result ≡ number *ℤ sum }
    ensures size { IsWithin (2 ^ 121) result }
{
    product(number, i128::from(sum))
}

// Whether the level is kept at the sides of a value, which is the greatest of its record or not.
fn is_kept(sides: &Sides, greatest: bool) -> bool
    ensures { IsTrue result ↔ AreKept greatest sides.now.left sides.now.right }
{
    if greatest {
        return sides.left == sides.right;
    }
    sides.right < sides.left
}
