//! Whether an auction with groups of bidders, as written, is within the limits.
ghost use Rattle.std.specs.Prelude.{◌≡◌, ◌==◌, pos, ◌&&◌, nat_le, length, unsigned_abs};
ghost use Rattle.std.specs.List.{list_all, sum_by};
ghost use Rattle.md_setting.specs.Grouped.{written_grouped, written_group};
ghost use Rattle.md_setting.specs.GroupedRefusals.{is_from_to, has_group_sizes, has_grouped_sizes, has_grouped_shape, is_group_in_range, is_grouped_in_range};

use crate::auction_limits::{are_factors_in_range, are_gains_in_range};
use crate::range::{are_small, are_weights, is_small};
use crate::{RawGroup, RawGroupedAuction};

/// The most groups, and the most values of each of their bidders.
pub const MAX_GROUPS: usize = 64;

pub const MAX_GROUP_VALUES: usize = 64;

/// The most bidders of a group.
pub const MAX_COUNT: i64 = 1_000;

/// The most bidders of all groups.
pub const MAX_ALL_BIDDERS: u64 = 1_000;

/// The most slots, and the greatest amount of one.
pub const MAX_SLOTS: usize = 1_000;

pub const MAX_AMOUNT: i64 = 1_000;

// The greatest size of a value, and of what a unit that a bidder gets is worth to the designer.
const MAX_WORTH: u64 = 1_000_000;

/// Whether there are neither too few nor too many groups, bidders, values and slots.
#[tactic(auto, using(crate::proofs::GroupedViews::sizes))]
pub(crate) fn has_grouped_sizes(raw: &RawGroupedAuction) -> bool
    ensures { result ≡ has_grouped_sizes (written_grouped raw.now) }
{
    is_size(MAX_GROUPS, raw.groups.len())
        && have_group_sizes(&raw.groups)
        && has_few_bidders(&raw.groups)
        && is_size(MAX_SLOTS, raw.slots.len())
}

fn is_size(limit: usize, size: usize) -> bool
    ensures { result ≡ (nat_le 1 size && nat_le size limit) }
{
    1 <= size && size <= limit
}

fn have_group_sizes(groups: &[RawGroup]) -> bool
    ensures { result ≡ list_all (λ group. has_group_sizes (written_group group)) groups.now }
{
    groups.iter().all(|group| has_group_sizes(group))
}

fn has_group_sizes(group: &RawGroup) -> bool
    ensures { result ≡ has_group_sizes (written_group group.now) }
{
    is_from_to(1, MAX_COUNT, group.count) && is_size(MAX_GROUP_VALUES, group.values.len())
}

fn is_from_to(low: i64, high: i64, number: i64) -> bool
    ensures { result ≡ is_from_to low high number }
{
    low <= number && number <= high
}

// Whether all groups together have no more bidders than there may be.
fn has_few_bidders(groups: &[RawGroup]) -> bool
    ensures { result ≡ nat_le (sum_by (λ group. unsigned_abs (written_group group).count) groups.now) 1000 }
{
    let mut left = MAX_ALL_BIDDERS;
    for group in groups {
        let count = bidders_in(group);
        if count > left {
            return false;
        }
        left -= count;
    }
    true
}

fn bidders_in(group: &RawGroup) -> u64
    ensures { result ≡ unsigned_abs (written_group group.now).count }
{
    group.count.unsigned_abs()
}

/// Whether each group has a weight for each value.
#[tactic(auto, using(crate::proofs::GroupedViews::shape))]
pub(crate) fn has_grouped_shape(raw: &RawGroupedAuction) -> bool
    ensures { result ≡ has_grouped_shape (written_grouped raw.now) }
{
    have_shape(&raw.groups)
}

fn have_shape(groups: &[RawGroup]) -> bool
    ensures { result ≡ list_all (λ group. length (written_group group).weights == length (written_group group).values) groups.now }
{
    groups.iter().all(|group| has_shape(group))
}

#[tactic(auto, using(crate::proofs::GroupedViews::group_shape))]
fn has_shape(group: &RawGroup) -> bool
    ensures { result ≡ (length (written_group group.now).weights == length (written_group group.now).values) }
{
    group.weights.len() == group.values.len()
}

/// Whether each number is within its limit.
#[tactic(auto, using(crate::proofs::GroupedViews::range))]
pub(crate) fn is_grouped_in_range(raw: &RawGroupedAuction) -> bool
    ensures { result ≡ is_grouped_in_range (written_grouped raw.now) }
{
    are_amounts(&raw.slots)
        && are_factors_in_range(raw.revenue, raw.welfare, raw.keep)
        && are_groups_in_range(raw.welfare, &raw.groups)
}

fn are_amounts(slots: &[i64]) -> bool
    ensures { result ≡ list_all (is_from_to (pos 1) (pos 1000)) slots.now }
{
    slots
        .iter()
        .all(|amount| is_from_to(1, MAX_AMOUNT, *amount))
}

fn are_groups_in_range(welfare: i64, groups: &[RawGroup]) -> bool
    ensures { result ≡ list_all (λ group. is_group_in_range welfare (written_group group)) groups.now }
{
    groups.iter().all(|group| is_group_in_range(welfare, group))
}

fn is_group_in_range(welfare: i64, group: &RawGroup) -> bool
    ensures { result ≡ is_group_in_range welfare (written_group group.now) }
{
    are_small(MAX_WORTH, &group.values)
        && are_weights(&group.weights)
        && is_small(MAX_WORTH, group.worth)
        && are_gains_in_range(welfare, &group.values)
}
