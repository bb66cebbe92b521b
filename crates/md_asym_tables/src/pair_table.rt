//! The profile table of a flow.
ghost use Rattle.std.specs.Prelude.{◌≡◌, ◌+◌, ◌*◌, ◌<◌, ◌≤◌, ◌++◌, length, slice_index, IfOk, OnOk};
ghost use Rattle.md_math.specs.Lists.{number_at};
ghost use Rattle.md_space.specs.Profiles.{profile_count, profile_at};
ghost use Rattle.md_setting.specs.Meaning.{agent_count, sizes_of};
ghost use Rattle.md_asym_sale.specs.Pairs.{pair_number};
ghost use Rattle.md_asym_sale.specs.Values.{pairs_of};
ghost use Rattle.md_asym_tables.specs.Tables.{masses_in, masses_in_at};

use md_asym_sale::{agents, pair_count, pair_number, profiles, type_at};
use md_num::{NoMemory, Nums};
use md_setting::Setting;
use std::alloc::Global;

/// Of amounts by rank and then by pair, those of the agents with their types, by rank and then by agent.
pub(crate) fn table_of(alloc: Global, setting: &Setting, amounts: &Nums) -> Result<Nums, NoMemory>
    requires few { pairs_of setting.now ≤ 12 }
    requires one_each { length amounts.now ≡ profile_count (sizes_of setting.now) * pairs_of setting.now }
    ensures { IfOk result (λ table. table ≡ masses_in setting.now amounts.now) }
{
    let mut table = Nums::new(alloc);
    for rank in 0..profiles(setting) {
        push_masses(setting, amounts, rank, &mut table)?;
    }
    Ok(table)
}

fn push_masses(
    setting: &Setting,
    amounts: &Nums,
    rank: u32,
    table: &mut Nums,
) -> Result<(), NoMemory>
    requires few { pairs_of setting.now ≤ 12 }
    requires one_each { length amounts.now ≡ profile_count (sizes_of setting.now) * pairs_of setting.now }
    requires rank_in { rank < profile_count (sizes_of setting.now) }
    ensures { OnOk result (table.new ≡ table.old ++ masses_in_at setting.now amounts.now rank) }
{
    for agent in 0..agents(setting) {
        table.push(amount(setting, amounts, rank, agent))?;
    }
    Ok(())
}

// The amount of the pair of an agent and its type at the profile of a rank.
fn amount(setting: &Setting, amounts: &Nums, rank: u32, agent: u8) -> i128
    requires few { pairs_of setting.now ≤ 12 }
    requires one_each { length amounts.now ≡ profile_count (sizes_of setting.now) * pairs_of setting.now }
    requires rank_in { rank < profile_count (sizes_of setting.now) }
    requires agent_in { agent < agent_count setting.now }
    ensures { result ≡ number_at amounts.now (rank * pairs_of setting.now + pair_number (sizes_of setting.now) agent (slice_index (profile_at (sizes_of setting.now) rank) agent)) }
{
    let kind = type_at(setting, rank, agent);
    let place = rank * pair_count(setting) + pair_number(setting, agent, kind);
    amounts.get(place as usize)
}
