//! Whether the names of a setting are well formed and told apart.
ghost use Rattle.std.specs.Prelude.{◌≡◌, ℕ, List, IfOk, map, string_bytes};
ghost use Rattle.std.specs.List.{list_all};
ghost use Rattle.md_setting.specs.Setting.{written, written_agent};
ghost use Rattle.md_setting.specs.Grouped.{written_grouped, written_group};
ghost use Rattle.md_setting.specs.GroupedRefusals.{has_good_group_names, has_own_group_names};
ghost use Rattle.md_setting.specs.Refusals.{is_name, is_name_byte, has_named_types, has_good_names, has_own_names, are_apart};

use crate::{RawAgent, RawGroup, RawGroupedAuction, RawSetting};
use std::alloc::{AllocError, Global};
use std::collections::BTreeSet;

/// What has a name.
pub(crate) trait Named {
    ghost name_of: { Self → List ℕ };

    /// Its name.
    fn name(&self) -> &str
        ensures { result.now ≡ name_of self.now };
}

impl Named for String {
    ghost name_of = { string_bytes };

    fn name(&self) -> &str {
        self.as_str()
    }
}

impl Named for RawAgent {
    ghost name_of = { λ agent. (written_agent agent).name };

    fn name(&self) -> &str {
        self.name.as_str()
    }
}

impl Named for RawGroup {
    ghost name_of = { λ group. (written_group group).name };

    fn name(&self) -> &str {
        self.name.as_str()
    }
}

/// The most bytes of a name.
pub const MAX_NAME: usize = 32;

/// Whether each name is 1 to 32 letters, digits and underscores.
#[tactic(auto, using(crate::proofs::Views::good_names))]
pub(crate) fn has_good_names(raw: &RawSetting) -> bool
    ensures { result ≡ has_good_names (written raw.now) }
{
    are_named(&raw.agents) && are_names(&raw.outcomes)
}

fn are_named(agents: &[RawAgent]) -> bool
    ensures { result ≡ list_all (λ agent. has_named_types (written_agent agent)) agents.now }
{
    agents.iter().all(|agent| is_named(agent))
}

#[tactic(auto, using(crate::proofs::Views::all_names))]
fn is_named(agent: &RawAgent) -> bool
    ensures { result ≡ has_named_types (written_agent agent.now) }
{
    is_name(&agent.name) && are_names(&agent.types)
}

fn are_names(texts: &[String]) -> bool
    ensures { result ≡ list_all (λ text. is_name (string_bytes text)) texts.now }
{
    texts.iter().all(|text| is_name(text))
}

fn is_name(text: &str) -> bool
    ensures { result ≡ is_name text.now }
{
    !text.is_empty() && text.len() <= MAX_NAME && are_name_bytes(text.as_bytes())
}

fn are_name_bytes(bytes: &[u8]) -> bool
    ensures { result ≡ list_all is_name_byte bytes.now }
{
    bytes.iter().all(|b| is_name_byte(*b))
}

fn is_name_byte(b: u8) -> bool
    ensures { result ≡ is_name_byte b }
{
    matches!(b, b'0'..=b'9' | b'A'..=b'Z' | b'a'..=b'z' | b'_')
}

/// Whether each group of bidders has such a name.
#[tactic(auto, using(crate::proofs::GroupedViews::good_names))]
pub(crate) fn has_good_group_names(raw: &RawGroupedAuction) -> bool
    ensures { result ≡ has_good_group_names (written_grouped raw.now) }
{
    are_groups_named(&raw.groups)
}

fn are_groups_named(groups: &[RawGroup]) -> bool
    ensures { result ≡ list_all (λ group. is_name (written_group group).name) groups.now }
{
    groups.iter().all(|group| is_name(&group.name))
}

/// Whether no two groups of bidders share a name.
#[tactic(auto, using(crate::proofs::GroupedViews::own_names))]
pub(crate) fn has_own_group_names(
    alloc: Global,
    raw: &RawGroupedAuction,
) -> Result<bool, AllocError>
    ensures { IfOk result (λ own. own ≡ has_own_group_names (written_grouped raw.now)) }
{
    are_apart(alloc, &raw.groups)
}

/// Whether no two agents, no two outcomes and no two types of one agent share a name.
#[tactic(auto, using(crate::proofs::Views::own_names))]
pub(crate) fn has_own_names(alloc: Global, raw: &RawSetting) -> Result<bool, AllocError>
    ensures { IfOk result (λ own. own ≡ has_own_names (written raw.now)) }
{
    Ok(
        are_apart(alloc, &raw.agents)?
            && are_apart(alloc, &raw.outcomes)?
            && are_types_apart(alloc, &raw.agents)?,
    )
}

/// Whether no two of some things share a name.
pub(crate) fn are_apart<T: Named>(alloc: Global, items: &[T]) -> Result<bool, AllocError>
    ensures { IfOk result (λ apart. apart ≡ are_apart (map T.name_of items.now)) }
{
    let mut seen = BTreeSet::new(alloc);
    for item in items {
        if !seen.insert(item.name())? {
            return Ok(false);
        }
    }
    Ok(true)
}

fn are_types_apart(alloc: Global, agents: &[RawAgent]) -> Result<bool, AllocError>
    ensures { IfOk result (λ apart. apart ≡ list_all (λ agent. are_apart (written_agent agent).types) agents.now) }
{
    for agent in agents {
        if !are_apart(alloc, &agent.types)? {
            return Ok(false);
        }
    }
    Ok(true)
}
