//! The records of a list, and their virtual values.
ghost use Rattle.std.specs.Prelude.{◌≡◌, ◌<◌, ◌^◌, ◌<ℤ◌, ℕ, pos, length, map, IfOk};
ghost use Rattle.md_list_gains.specs.Places.{AreWithin};
ghost use Rattle.md_list_find.specs.GroupSums.{ranked_of};
ghost use Rattle.md_list_find.specs.Levels.{IsLevelOf, AreLevelsOf};
ghost use Rattle.md_list_find.specs.Places.{pool_at};

use crate::order::Pool;
use md_list::Ranked;
use md_list_gains::Sums;
use md_num::{Frac, NoMemory};
use std::alloc::Global;

/// The records alone.
pub(crate) fn ranks(alloc: Global, pools: &[Pool]) -> Result<Vec<Ranked>, NoMemory>
    ensures { IfOk result (λ ranks. ranks.items ≡ map ranked_of pools.now) }
{
    let mut ranks = Vec::new(alloc);
    for pool in pools {
        ranks.push(Ranked {
            group: pool.group,
            first: pool.first,
            stop: pool.stop,
        })?;
    }
    Ok(ranks)
}

/// Their virtual values.
pub(crate) fn levels(alloc: Global, pools: &[Pool]) -> Result<Vec<Frac>, NoMemory>
    requires sizes { (p : ℕ) → p < length pools.now → AreWithin (2 ^ 59) (pool_at pools.now p).sums }
    requires positive { (p : ℕ) → p < length pools.now → pos 0 <ℤ (pool_at pools.now p).sums.weight }
    ensures { IfOk result (λ levels. AreLevelsOf pools.now (length pools.now) levels.items) }
{
    let mut levels = Vec::new(alloc);
    for place in 0..pools.len() {
        levels.push(level(pools[place].sums))?;
    }
    Ok(levels)
}

// What some values gain by weight.
fn level(sums: Sums) -> Frac
    requires size { AreWithin (2 ^ 59) sums }
    requires positive { pos 0 <ℤ sums.weight }
    ensures { IsLevelOf sums result }
{
    Frac::reduced(i128::from(sums.gain), i128::from(sums.weight))
}
