//! One of some places, drawn by a number.
ghost use Rattle.std.specs.Prelude.{◌≡◌, ◌+◌, ◌*◌, ◌≤◌, ◌<◌, ◌↔◌, pos, ◌≤ℤ◌, ◌<ℤ◌, ◌-ℤ◌, IsTrue, MatchOption, length};
ghost use Rattle.md_math.specs.FirstFailure.{HoldsBelow};
ghost use Rattle.md_run.specs.Lottery.{IsDrawnPlace, IsNoPlace, IsChanceFrom, chances_from};

use md_num::Nums;

/// The first of some places at which the chances, up to its own, add to more than the draw. The chances are those of a row
/// of a list. What is left of the draw never goes below 0, so no difference is too large.
pub(crate) fn drawn_place(rows: &Nums, row: u32, places: u32, draw: i128) -> Option<u32>
    requires few { (row < 20000) × (places ≤ 16) }
    requires inside { (row + 1) * places ≤ length rows.now }
    requires from { pos 0 ≤ℤ draw }
    requires nonneg { HoldsBelow places (IsChanceFrom rows.now (row * places)) }
    ensures { MatchOption result (IsNoPlace places (chances_from rows.now (row * places)) draw) (IsDrawnPlace places (chances_from rows.now (row * places)) draw) }
{
    let mut left = draw;
    for place in 0..places {
        let chance = rows.get((row * places + place) as usize);
        if is_below(left, chance) {
            return Some(place);
        }
        left = difference(left, chance);
    }
    None
}

fn is_below(left: i128, right: i128) -> bool
    ensures { IsTrue result ↔ (left <ℤ right) }
{
    left < right
}

fn difference(a: i128, b: i128) -> i128
    requires nonneg { pos 0 ≤ℤ b }
    requires least { b ≤ℤ a }
    ensures { result ≡ a -ℤ b }
{
    a - b
}
