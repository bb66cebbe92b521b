//! The tests of a setting whose names and sizes are in order.
ghost use Rattle.std.specs.Prelude.{◌≡◌, Some, IfOk, IfErr, OnOk};
ghost use Rattle.md_setting.specs.Setting.{written};
ghost use Rattle.md_setting.specs.Meaning.{sizes_of, total_of};
ghost use Rattle.md_setting.specs.Rows.{row_count};
ghost use Rattle.md_setting.specs.Passed.{HasNamesAndSizes, HasLists, HasTotals};
ghost use Rattle.md_setting.specs.Refusals.{refusal_of};

use crate::range::has_small_lists;
use crate::rows::rows_in;
use crate::shape::has_good_shape;
use crate::values::has_small_values;
use crate::weights::{has_all_weights, total_in};
use crate::{BuildRefusal, RawSetting};
use md_space::Space;

/// Tests the lists and their numbers.
pub(crate) fn check_lists(raw: &RawSetting, space: &Space) -> Result<(), BuildRefusal>
    requires sizes { space.now ≡ sizes_of (written raw.now) }
    requires first { HasNamesAndSizes (written raw.now) }
    ensures ok { OnOk result (HasLists (written raw.now)) }
    ensures refused { IfErr result (λ e. refusal_of (written raw.now) ≡ Some e) }
{
    let profiles = space.profiles();
    if !has_good_shape(raw, profiles) {
        return Err(BuildRefusal::Shape);
    }
    if !has_small_lists(raw) {
        return Err(BuildRefusal::OutOfRange);
    }
    if !has_small_values(raw, space) {
        return Err(BuildRefusal::OutOfRange);
    }
    if !has_all_weights(raw, space) {
        return Err(BuildRefusal::ZeroWeight);
    }
    Ok(())
}

/// How much a setting's profiles weigh together, and how many rows its program has.
#[derive(Clone, Copy)]
pub(crate) struct Totals {
    pub total: i64,
    pub rows: u32,
}

/// Tests the weight of all profiles and the number of rows.
pub(crate) fn check_totals(raw: &RawSetting, space: &Space) -> Result<Totals, BuildRefusal>
    requires sizes { space.now ≡ sizes_of (written raw.now) }
    requires lists { HasLists (written raw.now) }
    ensures ok { OnOk result (HasTotals (written raw.now)) }
    ensures total { IfOk result (λ totals. totals.total ≡ total_of (written raw.now)) }
    ensures rows { IfOk result (λ totals. totals.rows ≡ row_count (written raw.now)) }
    ensures refused { IfErr result (λ e. refusal_of (written raw.now) ≡ Some e) }
{
    let Some(total) = total_in(raw, space) else {
        return Err(BuildRefusal::WeightTotal);
    };
    let Some(rows) = rows_in(raw, space) else {
        return Err(BuildRefusal::TooManyRows);
    };
    Ok(Totals { total, rows })
}
