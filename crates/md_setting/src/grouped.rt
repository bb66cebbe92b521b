//! Auctions with groups of bidders that are known to be well formed.
ghost use Rattle.std.specs.Prelude.{◌≡◌, ◌≢◌, ◌<◌, Some, None, IfOk, IfErr, pos, length, map};
ghost use Rattle.md_setting.specs.Grouped.{written_grouped, written_group, grouped_of, said_group, group_as_written, grouped_as_written, group_at};
ghost use Rattle.md_setting.specs.GroupedRefusals.{grouped_refusal_of};
ghost use Rattle.md_setting.specs.GroupedShaped.{IsGroupedAuction, IsKeptGrouped};

use crate::grouped_check::{check_grouped_numbers, check_grouped_orders};
use crate::{BuildRefusal, RawGroup, RawGroupedAuction};
use std::alloc::Global;
use std::marker::Model;

/// An auction within the limits, of bidders who differ, for slots of different amounts: bidders of a group have the same
/// values, by the same weights, apart from each other and from all others.
#[derive(Drop)]
pub struct GroupedAuction {
    raw: RawGroupedAuction,
}

impl Model for GroupedAuction {
    ghost use Rattle.md_setting.specs.Grouped.{GroupedAuction as Grouped, written_grouped, grouped_of};
    ghost use Rattle.md_setting.specs.GroupedShaped.{IsKeptGrouped};

    ghost Value = { Grouped };

    ghost view = { λ a. grouped_of (written_grouped a.raw) };

    ghost invariant = { λ a. IsKeptGrouped a.raw };
}

impl GroupedAuction {
    /// The auction that was written, unless there is a reason to refuse it.
    pub fn new(alloc: Global, raw: RawGroupedAuction) -> Result<GroupedAuction, BuildRefusal>
        ensures ok { IfOk result (λ auction. auction ≡ grouped_of (written_grouped raw)) }
        ensures accepted { IfOk result (λ _. grouped_refusal_of (written_grouped raw) ≡ None) }
        ensures refused { IfErr result (λ e. e ≢ BuildRefusal.Memory → grouped_refusal_of (written_grouped raw) ≡ Some e) }
    {
        check_grouped_numbers(alloc, &raw)?;
        check_grouped_orders(&raw)?;
        Ok(GroupedAuction { raw })
    }

    /// The auction as it was written.
    pub fn as_written(&self) -> &RawGroupedAuction
        ensures written { written_grouped result.now ≡ grouped_as_written self.now }
        ensures accepted { grouped_refusal_of (grouped_as_written self.now) ≡ None }
        ensures shaped { IsGroupedAuction self.now }
    {
        &self.raw
    }

    /// The number of groups.
    pub fn groups(&self) -> u32
        ensures count { result ≡ length self.now.groups }
        ensures shaped { IsGroupedAuction self.now }
    {
        self.raw.groups.len() as u32
    }

    /// The name of a group.
    pub fn name(&self, group: u32) -> &str
        requires { group < length self.now.groups }
        ensures value { result.now ≡ (group_at self.now group).name }
        ensures shaped { IsGroupedAuction self.now }
    {
        self.group(group).name.as_str()
    }

    /// How many bidders there are in a group.
    pub fn count(&self, group: u32) -> u32
        requires { group < length self.now.groups }
        ensures value { result ≡ (group_at self.now group).count }
        ensures shaped { IsGroupedAuction self.now }
    {
        self.group(group).count as u32
    }

    /// The values that bidders of a group may have, in ascending order.
    pub fn values(&self, group: u32) -> &[i64]
        requires { group < length self.now.groups }
        ensures value { result.now ≡ (group_at self.now group).values }
        ensures shaped { IsGroupedAuction self.now }
    {
        self.group(group).values.as_slice()
    }

    /// The weights of these values.
    pub fn weights(&self, group: u32) -> &[i64]
        requires { group < length self.now.groups }
        ensures value { result.now ≡ map pos (group_at self.now group).weights }
        ensures shaped { IsGroupedAuction self.now }
    {
        self.group(group).weights.as_slice()
    }

    /// What a unit that a bidder of a group gets is worth to the designer.
    pub fn worth(&self, group: u32) -> i64
        requires { group < length self.now.groups }
        ensures value { result ≡ (group_at self.now group).worth }
        ensures shaped { IsGroupedAuction self.now }
    {
        self.group(group).worth
    }

    /// The amounts of the slots, of which none is greater than the one before it.
    pub fn slots(&self) -> &[i64]
        ensures value { result.now ≡ map pos self.now.slots }
        ensures shaped { IsGroupedAuction self.now }
    {
        self.raw.slots.as_slice()
    }

    /// The factor of the payments in the objective.
    pub fn revenue(&self) -> i64
        ensures value { result ≡ self.now.revenue }
        ensures shaped { IsGroupedAuction self.now }
    {
        self.raw.revenue
    }

    /// The factor of what slots are worth to bidders in the objective.
    pub fn welfare(&self) -> i64
        ensures value { result ≡ self.now.welfare }
        ensures shaped { IsGroupedAuction self.now }
    {
        self.raw.welfare
    }

    /// What a unit that nobody gets is worth to the designer.
    pub fn keep(&self) -> i64
        ensures value { result ≡ self.now.keep }
        ensures shaped { IsGroupedAuction self.now }
    {
        self.raw.keep
    }

    // A group as it was written.
    fn group(&self, group: u32) -> &RawGroup
        requires { group < length self.now.groups }
        ensures said { said_group (written_group result.now) ≡ group_at self.now group }
        ensures written { written_group result.now ≡ group_as_written (group_at self.now group) }
        ensures shaped { IsGroupedAuction self.now }
    {
        group_in(&self.raw, group as usize)
    }
}

// A group of an auction that is not refused.
#[tactic(auto, using(crate::proofs::GroupedLaws::kept_groups))]
fn group_in(raw: &RawGroupedAuction, group: usize) -> &RawGroup
    requires kept { IsKeptGrouped raw.now }
    requires inside { group < length (grouped_of (written_grouped raw.now)).groups }
    ensures said { said_group (written_group result.now) ≡ group_at (grouped_of (written_grouped raw.now)) group }
    ensures written { written_group result.now ≡ group_as_written (group_at (grouped_of (written_grouped raw.now)) group) }
{
    &raw.groups[group]
}
