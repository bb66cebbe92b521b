//! General settings that are known to be well formed.
ghost use Rattle.std.specs.Prelude.{◌≡◌, ◌≢◌, ◌<◌, ◌↔◌, pos, ◌<ℤ◌, Some, None, IfOk, IfErr, IfSome, IsNone, IsSome, IsTrue, Contains, length, slice_index, slice_index_or, []};
ghost use Rattle.md_math.specs.Lists.{number_at};
ghost use Rattle.md_math.specs.Sizes.{IsWithin};
ghost use Rattle.md_space.specs.ByType.{where_type};
ghost use Rattle.md_space.specs.Profiles.{profile_count, profile_at};
ghost use Rattle.md_setting.specs.Setting.{written, names_of};
ghost use Rattle.md_setting.specs.Meaning.{agent_at, agent_count, outcome_count, sizes_of, utility_of, outside_of, weight_of, marginal_of, total_of, value_of};
ghost use Rattle.md_setting.specs.Names.{agent_names, type_names, place_of};
ghost use Rattle.md_setting.specs.Rows.{row_count};
ghost use Rattle.md_setting.specs.Shaped.{IsShaped};
ghost use Rattle.md_setting.specs.Refusals.{refusal_of};

use crate::check::{check_lists, check_totals};
use crate::lookup::{agent_in, outside_in, utility_in};
use crate::names::{has_good_names, has_own_names};
use crate::numbering::{Numbering, number_names};
use crate::shape::space_of;
use crate::values::value_in;
use crate::weights::weights_by_rank;
use crate::{BuildRefusal, Rational, RawSetting, Truth};
use md_space::Space;
use std::alloc::Global;
use std::marker::Model;

/// A general setting within the limits, of which contracts see what it says.
#[derive(Drop)]
pub struct Setting {
    raw: RawSetting,
    space: Space,
    numbers: Numbering,
    // the weight of each profile, by rank
    weights: Vec<i64>,
    total: i64,
    rows: u32,
}

impl Model for Setting {
    ghost use Rattle.md_setting.specs.Setting.{GeneralSetting, written};
    ghost use Rattle.md_setting.specs.Kept.{IsKept};

    ghost Value = { GeneralSetting };

    ghost view = { λ s. written s.raw };

    ghost invariant = { λ s. IsKept s.raw s.space s.numbers.agents s.numbers.outcomes s.numbers.types.items s.weights.items s.total s.rows };
}

impl Setting {
    /// The setting that was written, unless there is a reason to refuse it.
    pub fn new(alloc: Global, raw: RawSetting) -> Result<Setting, BuildRefusal>
        ensures ok { IfOk result (λ setting. setting ≡ written raw) }
        ensures accepted { IfOk result (λ _. refusal_of (written raw) ≡ None) }
        ensures refused { IfErr result (λ e. e ≢ BuildRefusal.Memory → refusal_of (written raw) ≡ Some e) }
    {
        if !has_good_names(&raw) {
            return Err(BuildRefusal::BadName);
        }
        let Ok(own) = has_own_names(alloc, &raw) else {
            return Err(BuildRefusal::Memory);
        };
        if !own {
            return Err(BuildRefusal::DoubleName);
        }
        let space = space_of(alloc, &raw)?;
        check_lists(&raw, &space)?;
        let totals = check_totals(&raw, &space)?;
        let Ok(numbers) = number_names(alloc, &raw) else {
            return Err(BuildRefusal::Memory);
        };
        let Ok(weights) = weights_by_rank(alloc, &raw, &space) else {
            return Err(BuildRefusal::Memory);
        };
        Ok(Setting {
            raw,
            space,
            numbers,
            weights,
            total: totals.total,
            rows: totals.rows,
        })
    }
}

impl Setting {
    /// The setting as it was written: an agent's weights are empty beside a joint prior.
    pub fn as_written(&self) -> &RawSetting
        ensures written { written result.now ≡ self.now }
        ensures accepted { refusal_of self.now ≡ None }
        ensures shaped { IsShaped self.now }
    {
        &self.raw
    }

    /// The space of the profiles.
    pub fn space(&self) -> &Space
        ensures sizes { result.now ≡ sizes_of self.now }
        ensures shaped { IsShaped self.now }
    {
        &self.space
    }

    /// The number of rows of the setting's linear program.
    pub fn rows(&self) -> u32
        ensures count { result ≡ row_count self.now }
        ensures shaped { IsShaped self.now }
    {
        self.rows
    }

    /// The number of outcomes.
    pub fn outcomes(&self) -> u32
        ensures count { result ≡ outcome_count self.now }
        ensures shaped { IsShaped self.now }
    {
        self.raw.outcomes.len() as u32
    }

    /// The weight of the profile of a rank.
    pub fn weight(&self, rank: u32) -> i128
        requires { rank < profile_count (sizes_of self.now) }
        ensures value { result ≡ weight_of self.now (profile_at (sizes_of self.now) rank) }
        ensures size { IsWithin 1000000 result }
        ensures shaped { IsShaped self.now }
    {
        i128::from(self.weights.as_slice()[rank as usize])
    }

    /// The weight of all profiles together.
    pub fn total(&self) -> i128
        ensures value { result ≡ total_of self.now }
        ensures positive { pos 0 <ℤ result }
        ensures size { IsWithin 1000000 result }
        ensures shaped { IsShaped self.now }
    {
        i128::from(self.total)
    }

    /// The weight of the profiles in which an agent has a type.
    pub fn marginal(&self, agent: u8, kind: u8) -> i128
        requires agent_in { agent < agent_count self.now }
        requires kind_in { kind < slice_index (sizes_of self.now) agent }
        ensures value { result ≡ marginal_of self.now agent kind }
        ensures positive { pos 0 <ℤ result }
        ensures size { IsWithin 1000000 result }
        ensures shaped { IsShaped self.now }
    {
        let mut sum = 0;
        for rank in 0..self.space().profiles() {
            sum += self.weight_given(agent, kind, rank);
        }
        sum
    }

    // The weight of one profile, if the agent has the type there.
    fn weight_given(&self, agent: u8, kind: u8, rank: u32) -> i128
        requires agent_in { agent < agent_count self.now }
        requires rank_in { rank < profile_count (sizes_of self.now) }
        ensures value { result ≡ where_type agent kind (weight_of self.now) (profile_at (sizes_of self.now) rank) }
        ensures size { IsWithin 1000000 result }
    {
        if self.space().report(rank, agent) != kind {
            return 0;
        }
        self.weight(rank)
    }

    /// The utility of an agent at an outcome where the profile of a rank has the true types.
    pub fn utility(&self, agent: u8, rank: u32, outcome: u32) -> i128
        requires agent_in { agent < agent_count self.now }
        requires rank_in { rank < profile_count (sizes_of self.now) }
        requires outcome_in { outcome < outcome_count self.now }
        ensures value { result ≡ utility_of self.now agent (profile_at (sizes_of self.now) rank) outcome }
        ensures size { IsWithin 1000000 result }
        ensures shaped { IsShaped self.now }
    {
        i128::from(utility_in(&self.raw, &self.space, agent, rank, outcome as usize))
    }

    /// Whether the utility of an agent depends on the types of all agents.
    pub fn has_at(&self, agent: u8) -> bool
        requires { agent < agent_count self.now }
        ensures { IsTrue result ↔ IsSome (agent_at self.now agent).at }
    {
        agent_in(&self.raw, agent as usize).at.is_some()
    }

    /// What a type of an agent has without taking part.
    pub fn outside(&self, agent: u8, kind: u8) -> i128
        requires agent_in { agent < agent_count self.now }
        requires kind_in { kind < slice_index (sizes_of self.now) agent }
        ensures value { result ≡ outside_of self.now agent kind }
        ensures size { IsWithin 1000000 result }
        ensures shaped { IsShaped self.now }
    {
        i128::from(outside_in(&self.raw, agent as usize, kind as usize))
    }

    /// What an outcome is worth to the designer at the profile of a rank.
    pub fn value(&self, rank: u32, outcome: u32) -> i128
        requires rank_in { rank < profile_count (sizes_of self.now) }
        requires outcome_in { outcome < outcome_count self.now }
        ensures value { result ≡ value_of self.now (profile_at (sizes_of self.now) rank) outcome }
        ensures size { IsWithin 10000000 result }
        ensures shaped { IsShaped self.now }
    {
        value_in(&self.raw, &self.space, rank, outcome as usize)
    }

    /// The factor of the agents' utilities in the designer's value.
    pub fn welfare(&self) -> i128
        ensures value { result ≡ self.now.welfare }
        ensures size { IsWithin 1000 result }
        ensures shaped { IsShaped self.now }
    {
        i128::from(self.raw.welfare)
    }

    /// The factor of the agents' payments in the objective.
    pub fn revenue(&self) -> i128
        ensures value { result ≡ self.now.revenue }
        ensures size { IsWithin 1000 result }
        ensures shaped { IsShaped self.now }
    {
        i128::from(self.raw.revenue)
    }

    /// The kind of truth.
    pub fn truth(&self) -> Truth
        ensures { result ≡ self.now.truth }
    {
        self.raw.truth
    }

    /// The kind of rationality.
    pub fn rational(&self) -> Rational
        ensures { result ≡ self.now.rational }
    {
        self.raw.rational
    }

    /// Whether agents pay.
    pub fn payments(&self) -> bool
        ensures { result ≡ self.now.payments }
    {
        self.raw.payments
    }

    /// Whether the payments of each profile may not add to less than 0.
    pub fn no_deficit(&self) -> bool
        ensures { result ≡ self.now.no_deficit }
    {
        self.raw.no_deficit
    }

    /// The name of an agent.
    pub fn agent_name(&self, agent: u8) -> &str
        requires { agent < agent_count self.now }
        ensures { result.now ≡ (agent_at self.now agent).name }
    {
        &agent_in(&self.raw, agent as usize).name
    }

    /// The name of a type of an agent.
    pub fn type_name(&self, agent: u8, kind: u8) -> &str
        requires agent_in { agent < agent_count self.now }
        requires kind_in { kind < slice_index (sizes_of self.now) agent }
        ensures { result.now ≡ slice_index_or (agent_at self.now agent).types kind [] }
    {
        text_at(&agent_in(&self.raw, agent as usize).types, kind as usize)
    }

    /// The agent of a name.
    pub fn agent_of(&self, name: &str) -> Option<u8>
        ensures place { result ≡ place_of (agent_names self.now) name.now }
        ensures found { IfSome result (λ agent. (agent < agent_count self.now) × (name.now ≡ (agent_at self.now agent).name)) }
        ensures none { IsNone result ↔ (¬ Contains (agent_names self.now) name.now) }
    {
        match self.numbers.agents.place(name) {
            Some(place) => Some(place as u8),
            None => None,
        }
    }

    /// The type of an agent by its name.
    pub fn type_of(&self, agent: u8, name: &str) -> Option<u8>
        requires { agent < agent_count self.now }
        ensures place { result ≡ place_of (type_names self.now agent) name.now }
        ensures found { IfSome result (λ kind. (kind < slice_index (sizes_of self.now) agent) × (name.now ≡ slice_index_or (type_names self.now agent) kind [])) }
        ensures none { IsNone result ↔ (¬ Contains (type_names self.now agent) name.now) }
    {
        match self.numbers.types[agent as usize].place(name) {
            Some(place) => Some(place as u8),
            None => None,
        }
    }

    /// The outcome of a name.
    pub fn outcome_of(&self, name: &str) -> Option<u32>
        ensures place { result ≡ place_of self.now.outcomes name.now }
        ensures found { IfSome result (λ outcome. (outcome < outcome_count self.now) × (name.now ≡ slice_index_or self.now.outcomes outcome [])) }
        ensures none { IsNone result ↔ (¬ Contains self.now.outcomes name.now) }
    {
        match self.numbers.outcomes.place(name) {
            Some(place) => Some(place as u32),
            None => None,
        }
    }

    /// The name of an outcome.
    pub fn outcome_name(&self, outcome: u32) -> &str
        requires { outcome < outcome_count self.now }
        ensures { result.now ≡ slice_index_or self.now.outcomes outcome [] }
    {
        text_at(&self.raw.outcomes, outcome as usize)
    }
}

fn text_at(texts: &[String], place: usize) -> &str
    requires { place < length texts.now }
    ensures { result.now ≡ slice_index_or (names_of texts.now) place [] }
{
    texts[place].as_str()
}
