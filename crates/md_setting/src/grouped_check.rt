//! The tests of an auction with groups of bidders, in their order.
ghost use Rattle.std.specs.Prelude.{◌≡◌, ◌≢◌, Some, None, OnOk, IfErr};
ghost use Rattle.md_setting.specs.Grouped.{written_grouped};
ghost use Rattle.md_setting.specs.GroupedRefusals.{HasGroupedNumbers, grouped_refusal_of};

use crate::grouped_limits::{has_grouped_shape, has_grouped_sizes, is_grouped_in_range};
use crate::grouped_weights::{
    are_falling, has_ascending_values, has_positive_weights, has_small_totals,
};
use crate::names::{has_good_group_names, has_own_group_names};
use crate::{BuildRefusal, RawGroupedAuction};
use std::alloc::Global;

/// Tests the names, the sizes, and the numbers one by one.
pub(crate) fn check_grouped_numbers(
    alloc: Global,
    raw: &RawGroupedAuction,
) -> Result<(), BuildRefusal>
    ensures ok { OnOk result (HasGroupedNumbers (written_grouped raw.now)) }
    ensures refused { IfErr result (λ e. e ≢ BuildRefusal.Memory → grouped_refusal_of (written_grouped raw.now) ≡ Some e) }
{
    if !has_good_group_names(raw) {
        return Err(BuildRefusal::BadName);
    }
    let Ok(own) = has_own_group_names(alloc, raw) else {
        return Err(BuildRefusal::Memory);
    };
    if !own {
        return Err(BuildRefusal::DoubleName);
    }
    if !has_grouped_sizes(raw) {
        return Err(BuildRefusal::Sizes);
    }
    if !has_grouped_shape(raw) {
        return Err(BuildRefusal::Shape);
    }
    if !is_grouped_in_range(raw) {
        return Err(BuildRefusal::OutOfRange);
    }
    Ok(())
}

/// Tests the weights, and the orders of values and slots.
pub(crate) fn check_grouped_orders(raw: &RawGroupedAuction) -> Result<(), BuildRefusal>
    requires numbers { HasGroupedNumbers (written_grouped raw.now) }
    ensures ok { OnOk result (grouped_refusal_of (written_grouped raw.now) ≡ None) }
    ensures refused { IfErr result (λ e. grouped_refusal_of (written_grouped raw.now) ≡ Some e) }
{
    if !has_positive_weights(raw) {
        return Err(BuildRefusal::ZeroWeight);
    }
    if !has_small_totals(raw) {
        return Err(BuildRefusal::WeightTotal);
    }
    if !has_ascending_values(raw) {
        return Err(BuildRefusal::ValuesOrder);
    }
    if !are_falling(&raw.slots) {
        return Err(BuildRefusal::SlotsOrder);
    }
    Ok(())
}
