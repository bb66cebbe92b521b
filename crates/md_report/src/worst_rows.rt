//! Of some rows the one at which most is missed.
ghost use Rattle.std.specs.Prelude.{◌≡◌, ◌⊎◌, ◌<◌, ◌≤◌, pos, ◌<ℤ◌, length, MatchOption};
ghost use Rattle.md_mech.specs.Rows.{conditions_of};
ghost use Rattle.md_report.specs.Numbers.{AreNumbers};
ghost use Rattle.md_report.specs.Worst.{IsMissed, IsWorstIn, IsNoMore, IsLess};

use crate::shortfalls::shortfall;
use crate::worst::Worst;
use md_mech::{Mechanism, condition_at};
use md_setting::Setting;

/// Of the rows from one on and before another, the first one at which most is missed.
pub(crate) fn worst_row(
    setting: &Setting,
    mechanism: &Mechanism,
    start: u32,
    end: u32,
) -> Option<Worst>
    requires numbers { AreNumbers setting.now mechanism.now }
    requires inside { end ≤ length (conditions_of setting.now) }
    ensures { MatchOption result (end ≤ start) (IsWorstIn setting.now mechanism.now start end) }
{
    if end <= start {
        return None;
    }
    let mut worst = missed_at(setting, mechanism, start);
    for row in start + 1..end {
        worst = worse(worst, missed_at(setting, mechanism, row));
    }
    Some(worst)
}

// The condition of a row, with what is missed of it.
fn missed_at(setting: &Setting, mechanism: &Mechanism, row: u32) -> Worst
    requires numbers { AreNumbers setting.now mechanism.now }
    requires inside { row < length (conditions_of setting.now) }
    ensures { IsMissed setting.now mechanism.now row result }
{
    let condition = condition_at(setting, row);
    Worst {
        condition,
        shortfall: shortfall(setting, mechanism, condition),
    }
}

// The one of which more is missed, and the first where it is the same.
fn worse(first: Worst, second: Worst) -> Worst
    requires first { pos 0 <ℤ first.shortfall.den }
    requires second { pos 0 <ℤ second.shortfall.den }
    ensures { ((result ≡ first) × IsNoMore second first) ⊎ ((result ≡ second) × IsLess first second) }
{
    if second.shortfall.at_most(&first.shortfall) {
        first
    } else {
        second
    }
}
