//! Records in the order of what they bring.
ghost use Rattle.std.specs.Prelude.{◌≡◌, ◌<◌, ◌≤◌, ◌^◌, true, false, length, insert, ℕ, OnOk};
ghost use Rattle.md_math.specs.LexOrder.{IsPairNonNegative, IsPairPositive};
ghost use Rattle.md_list_gains.specs.Places.{AreWithin, more_gain_by, more_benefit_by};
ghost use Rattle.md_list_find.specs.Places.{pool_at, IsPlaceFor};

use md_list_gains::{Sums, more_benefit, more_gain};
use md_num::NoMemory;

/// A record of a list, and what its values add up to.
#[derive(Clone, Copy)]
pub(crate) struct Pool {
    pub group: u32,
    pub first: usize,
    pub stop: usize,
    pub sums: Sums,
}

// Whether some values bring more than others by weight.
fn brings_more(sums: Sums, other: Sums) -> bool
    requires size { AreWithin (2 ^ 59) sums }
    requires other_size { AreWithin (2 ^ 59) other }
    ensures more { result ≡ true → IsPairPositive (more_gain_by sums other) (more_benefit_by sums other) }
    ensures no_more { result ≡ false → IsPairNonNegative (more_gain_by other sums) (more_benefit_by other sums) }
{
    let gain = more_gain(sums, other);
    if gain > 0 {
        return true;
    }
    if gain < 0 {
        return false;
    }
    more_benefit(sums, other) > 0
}

// The first place of a list at which a record brings less.
fn place_for(pools: &[Pool], sums: Sums) -> usize
    requires size { AreWithin (2 ^ 59) sums }
    requires sizes { (p : ℕ) → p < length pools.now → AreWithin (2 ^ 59) (pool_at pools.now p).sums }
    ensures { IsPlaceFor pools.now sums result }
{
    for place in 0..pools.len() {
        if brings_more(sums, pools[place].sums) {
            return place;
        }
    }
    pools.len()
}

/// Puts a record behind all that bring no less.
pub(crate) fn put(pools: &mut Vec<Pool>, pool: Pool) -> Result<(), NoMemory>
    requires size { AreWithin (2 ^ 59) pool.sums }
    requires sizes { (p : ℕ) → p < length pools.old.items → AreWithin (2 ^ 59) (pool_at pools.old.items p).sums }
    ensures { OnOk result ((i : ℕ) × IsPlaceFor pools.old.items pool.sums i × (pools.new.items ≡ insert pools.old.items i pool)) }
{
    let place = place_for(pools, pool.sums);
    pools.insert(place, pool)?;
    Ok(())
}
