//! The cost of the fair program: the level alone.
ghost use Rattle.std.specs.Prelude.{◌≡◌, IfOk};
ghost use Rattle.md_fair.specs.Costs.{written_cost};

use crate::layout::level_column;
use md_num::{NoMemory, Nums};
use md_setting::Setting;
use std::alloc::Global;

/// The cost of each column: nothing at the setting's columns, and then both parts of the level.
pub(crate) fn cost(alloc: Global, setting: &Setting) -> Result<Nums, NoMemory>
    ensures { IfOk result (λ cost. cost ≡ written_cost setting.now) }
{
    let mut cost = Nums::new(alloc);
    for _column in 0..level_column(setting) {
        cost.push(0)?;
    }
    cost.push(1)?;
    cost.push(-1)?;
    Ok(cost)
}
