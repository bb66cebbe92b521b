//! The rows of a dictionary at a pivot: all are made new, or all stay as they were.
ghost use Rattle.std.specs.Prelude.{◌≡◌, ℕ, ◌+◌, ◌<◌, ◌≤◌, IsFalse, IsTrue};
ghost use Rattle.md_math.specs.Lists.{number_at};
ghost use Rattle.md_dict.specs.Step.{IsTable, number_in};
ghost use Rattle.md_dict.specs.RowStep.{AreOldFrom, AreRestorable, IsDraft, IsNoted, IsRowStep, kept_in};
ghost use Rattle.md_dict.specs.Fill.{AreSameRows, AreTooWide, AreUnderWay, IsFilledBy, IsNewTable, IsRowsMultiple, IsWideFor};

use crate::copies::{copy_column, copy_row};
use crate::draft::Draft;
use crate::fill::{Filled, whole_den, write_rows};
use crate::old_rows::OldRows;
use crate::restore::restore_rows;
use crate::rows::Rows;
use crate::step::Step;
use md_dict_rows::Witnesses;

// Notes what the pivot needs of the rows as they are.
fn note(step: &Step, rows: &Rows, draft: &mut Draft)
    requires step { IsRowStep step.now rows.now }
    requires draft { IsDraft (step.now.rows + 2) (step.now.columns + 1) draft.old }
    ensures noted { IsNoted step.now rows.now draft.new }
    ensures draft { IsDraft (step.now.rows + 2) (step.now.columns + 1) draft.new }
{
    copy_row(
        step,
        step.row,
        rows.numbers.as_slice(),
        draft.pivot_row.as_mut_slice(),
    );
    copy_column(step, rows.numbers.as_slice(), draft.factors.as_mut_slice());
}

// Writes the rows after the pivot in the places of the old ones, up to the first one that is too wide by itself, and answers the least common multiple of the denominators of all.
pub fn fill(step: &Step, rows: &mut Rows, draft: &mut Draft, witnesses: &mut Witnesses) -> Filled
    requires step { IsRowStep step.now rows.old }
    requires draft { IsDraft (step.now.rows + 2) (step.now.columns + 1) draft.old }
    ensures den { IsRowsMultiple step.now rows.old (step.now.rows + 2) result.den }
    ensures written { result.written ≤ step.now.rows + 2 }
    ensures filled { result.written ≡ step.now.rows + 2 → IsFilledBy step.now rows.old rows.new.numbers.items draft.new.dens.items draft.new.sizes.items result.den }
    ensures wide { result.written < step.now.rows + 2 → IsWideFor step.now (kept_in step.now rows.old) }
    ensures restorable { AreRestorable step.now rows.old draft.new.factors.items rows.new.numbers.items draft.new.dens.items result.written }
    ensures rest { rows.new ≡ record rows.old { numbers = rows.new.numbers } }
    ensures table { IsTable step.now rows.new.numbers.items }
    ensures noted { IsNoted step.now rows.old draft.new }
    ensures draft { IsDraft (step.now.rows + 2) (step.now.columns + 1) draft.new }
{
    note(step, rows, draft);
    let old = OldRows {
        dens: rows.dens.as_slice(),
        sizes: rows.sizes.as_slice(),
        pivot_row: draft.pivot_row.as_slice(),
        factors: draft.factors.as_slice(),
        zeros: draft.zeros.as_slice(),
    };
    let mut filled = write_rows(
        step,
        &old,
        draft.own.as_mut_slice(),
        rows.numbers.as_mut_slice(),
        draft.dens.as_mut_slice(),
        draft.sizes.as_mut_slice(),
        witnesses,
    );
    filled.den = whole_den(step, &old, rows.numbers.as_slice(), &filled);
    filled
}

// Gives the rows that were written their old numbers back.
fn restore(step: &Step, rows: &mut Rows, draft: &Draft, written: usize)
    requires old { (before : Rows) × IsRowStep step.now before × IsNoted step.now before draft.now × (rows.old ≡ record before { numbers = rows.old.numbers }) × AreRestorable step.now before draft.now.factors.items rows.old.numbers.items draft.now.dens.items written }
    requires written { written ≤ step.now.rows + 2 }
    requires draft { IsDraft (step.now.rows + 2) (step.now.columns + 1) draft.now }
    requires table { IsTable step.now rows.old.numbers.items }
    ensures back { (before : Rows) → IsRowStep step.now before → IsNoted step.now before draft.now → rows.old ≡ record before { numbers = rows.old.numbers } → AreRestorable step.now before draft.now.factors.items rows.old.numbers.items draft.now.dens.items written → AreOldFrom step.now before rows.new.numbers.items 0 }
    ensures rest { rows.new ≡ record rows.old { numbers = rows.new.numbers } }
    ensures table { IsTable step.now rows.new.numbers.items }
{
    let old = OldRows {
        dens: rows.dens.as_slice(),
        sizes: rows.sizes.as_slice(),
        pivot_row: draft.pivot_row.as_slice(),
        factors: draft.factors.as_slice(),
        zeros: draft.zeros.as_slice(),
    };
    restore_rows(
        step,
        &old,
        draft.dens.as_slice(),
        written,
        rows.numbers.as_mut_slice(),
    );
}

// Makes the rows new where none is too wide over the common denominator, and else gives them their old numbers back; answers whether they are new.
pub fn renew(step: &Step, rows: &mut Rows, draft: &mut Draft, filled: &Filled) -> bool
    requires before { (before : Rows) × AreUnderWay step.now before rows.old draft.old filled.now }
    ensures new { IsTrue result → (before : Rows) → AreUnderWay step.now before rows.old draft.old filled.now → IsFilledBy step.now before rows.old.numbers.items draft.old.dens.items draft.old.sizes.items filled.now.den × IsNewTable step.now rows.new rows.old.numbers.items draft.old.dens.items draft.old.sizes.items filled.now.den }
    ensures wide { IsFalse result → (before : Rows) → AreUnderWay step.now before rows.old draft.old filled.now → AreTooWide step.now before rows.old draft.old filled.now }
    ensures same { IsFalse result → (before : Rows) → AreUnderWay step.now before rows.old draft.old filled.now → AreSameRows step.now before rows.new }
    ensures draft { IsDraft (step.now.rows + 2) (step.now.columns + 1) draft.new }
{
    if filled.written < step.rows + 2 {
        restore(step, rows, draft, filled.written);
        return false;
    }
    if !draft.share_out(filled.den, step.limit) {
        restore(step, rows, draft, filled.written);
        return false;
    }
    draft.hand_over(rows);
    true
}
