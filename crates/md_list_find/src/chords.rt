//! The reserve of a group, and where its pools end.
ghost use Rattle.std.specs.Prelude.{◌≡◌, ◌<◌, ◌-◌, ◌*ℤ◌, ◌≤ℤ◌, ◌<ℤ◌, true, false, length};
ghost use Rattle.md_math.specs.LexOrder.{IsPairNonNegative, IsPairPositive};
ghost use Rattle.md_list.specs.ByRule.{growth, IsReserve, IsPoolEnd};
ghost use Rattle.md_list_gains.specs.Places.{IsCurve, weight_to, gain_to, benefit_to};

use md_list_gains::{Sums, between, more_gain};

/// The last of the places at which gains, and then benefits, add up to least.
pub(crate) fn reserve(places: &[Sums]) -> usize
    requires { IsCurve places.now }
    ensures { IsReserve (length places.now - 1) (gain_to places.now) (benefit_to places.now) result }
{
    let mut lowest = 0;
    for place in 0..places.len() - 1 {
        if is_no_higher(places, place + 1, lowest) {
            lowest = place + 1;
        }
    }
    lowest
}

// Whether gains, and then benefits, add up to no more at a place than at another one.
fn is_no_higher(places: &[Sums], place: usize, other: usize) -> bool
    requires place { place < length places.now }
    requires other { other < length places.now }
    ensures low { result ≡ true
        → IsPairNonNegative (growth (gain_to places.now) place other) (growth (benefit_to places.now) place other) }
    ensures high { result ≡ false
        → IsPairPositive (growth (gain_to places.now) other place) (growth (benefit_to places.now) other place) }
{
    let here = places[place];
    let there = places[other];
    here.gain < there.gain || (here.gain == there.gain && here.benefit <= there.benefit)
}

/// The first place above another one up to which the virtual value is least.
pub(crate) fn pool_end(places: &[Sums], first: usize) -> usize
    requires curve { IsCurve places.now }
    requires inside { first < length places.now - 1 }
    ensures { IsPoolEnd (length places.now - 1) (weight_to places.now) (gain_to places.now) first result }
{
    let mut stop = first + 1;
    for place in first + 1..places.len() - 1 {
        if is_lower(places, first, place + 1, stop) {
            stop = place + 1;
        }
    }
    stop
}

// Whether the virtual value up to a place is less than that up to another one.
fn is_lower(places: &[Sums], first: usize, place: usize, stop: usize) -> bool
    requires curve { IsCurve places.now }
    requires first { first < length places.now }
    requires place { place < length places.now }
    requires stop { stop < length places.now }
    ensures low { result ≡ true
        → (growth (gain_to places.now) first place *ℤ growth (weight_to places.now) first stop)
        <ℤ (growth (gain_to places.now) first stop *ℤ growth (weight_to places.now) first place) }
    ensures high { result ≡ false
        → (growth (gain_to places.now) first stop *ℤ growth (weight_to places.now) first place)
        ≤ℤ (growth (gain_to places.now) first place *ℤ growth (weight_to places.now) first stop) }
{
    more_gain(between(places, first, place), between(places, first, stop)) < 0
}
