//! Which conditions hold with equality.
ghost use Rattle.std.specs.Prelude.{◌≡◌, ◌<◌, ◌↔◌, ◌++◌, pos, IfOk, OnOk, IsTrue, length, slice_get};
ghost use Rattle.md_mech.specs.Rows.{demand_rows};
ghost use Rattle.md_report.specs.Numbers.{AreNumbers};
ghost use Rattle.md_report.specs.Tight.{is_tight, tight_at, tight_rows};

use crate::shortfalls::shortfall;
use md_mech::{Mechanism, condition_at};
use md_num::{Frac, NoMemory};
use md_setting::Setting;
use std::alloc::Global;

/// The rows of the conditions on truth, rationality and the deficit that hold with equality, ascending.
pub(crate) fn tight(
    alloc: Global,
    setting: &Setting,
    mechanism: &Mechanism,
) -> Result<Vec<u32>, NoMemory>
    requires { AreNumbers setting.now mechanism.now }
    ensures { IfOk result (λ rows. rows.items ≡ tight_rows setting.now mechanism.now) }
{
    let mut rows = Vec::new(alloc);
    for row in 0..setting.rows() - setting.space().profiles() {
        push_if_tight(&mut rows, setting, mechanism, row)?;
    }
    Ok(rows)
}

// Adds a row where its condition holds with equality.
fn push_if_tight(
    rows: &mut Vec<u32>,
    setting: &Setting,
    mechanism: &Mechanism,
    row: u32,
) -> Result<(), NoMemory>
    requires numbers { AreNumbers setting.now mechanism.now }
    requires inside { row < length (demand_rows setting.now) }
    ensures { OnOk result (rows.new.items ≡ rows.old.items ++ tight_at setting.now mechanism.now row) }
{
    if !is_tight(setting, mechanism, row) {
        return Ok(());
    }
    rows.push(row)?;
    Ok(())
}

// Whether the condition of a row holds with equality.
fn is_tight(setting: &Setting, mechanism: &Mechanism, row: u32) -> bool
    requires numbers { AreNumbers setting.now mechanism.now }
    requires inside { row < length (demand_rows setting.now) }
    ensures { result ≡ is_tight setting.now mechanism.now (slice_get (demand_rows setting.now) row) }
{
    let missed = shortfall(setting, mechanism, condition_at(setting, row));
    is_zero(missed)
}

fn is_zero(value: Frac) -> bool
    ensures { IsTrue result ↔ (value.num ≡ pos 0) }
{
    value.num == 0
}
