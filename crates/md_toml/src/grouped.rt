//! What a document says of an auction with groups of bidders.
ghost use Rattle.std.specs.Prelude.{map, pos, [], ◌∷◌};
ghost use Rattle.toml.specs.View.{table_view};
ghost use Rattle.md_setting.specs.Grouped.{written_group, written_grouped};
ghost use Rattle.md_toml.specs.GroupedText.{group_of, grouped_in};
ghost use Rattle.md_toml.specs.Reading.{Gives};
ghost use Rattle.md_toml.specs.Values.{integer_in, list_in, read_each, defaulted, members_of_all};
ghost use Rattle.md_toml.specs.declared.key.Key.TheVariants as key;

use crate::known::has_grouped_keys;
use crate::values::{member_at, number_at, read_integers, read_tables, read_text, value_at};
use crate::{Key, SettingRefusal};
use md_setting::{RawGroup, RawGroupedAuction};
use std::alloc::Global;
use toml::Table;

pub(crate) fn read_grouped(
    alloc: Global,
    members: &Table,
) -> Result<RawGroupedAuction, SettingRefusal>
    ensures { Gives written_grouped result (grouped_in (table_view members.now)) }
{
    let slots = read_slots(alloc, members)?;
    let revenue = number_at(members, Key::Revenue, 1)?;
    let welfare = number_at(members, Key::Welfare, 0)?;
    let keep = number_at(members, Key::Keep, 0)?;
    let tables = read_tables(alloc, Key::Bidder, value_at(members, Key::Bidder)?)?;
    let groups = read_groups(alloc, &tables)?;
    if !has_grouped_keys(members, &tables) {
        return Err(SettingRefusal::UnknownKey);
    }
    Ok(RawGroupedAuction {
        slots,
        revenue,
        welfare,
        keep,
        groups,
    })
}

// The amounts of the slots: one slot of the amount 1 where the key is absent.
fn read_slots(alloc: Global, members: &Table) -> Result<Vec<i64>, SettingRefusal>
    ensures { Gives (λ slots. slots.items) result (defaulted (list_in integer_in) (pos 1 ∷ []) key.Slots (table_view members.now)) }
{
    match member_at(members, Key::Slots) {
        Some(value) => read_integers(alloc, Key::Slots, value),
        None => Ok(vec![in alloc; 1; 1]?),
    }
}

fn read_groups(alloc: Global, tables: &[&Table]) -> Result<Vec<RawGroup>, SettingRefusal>
    ensures { Gives (λ groups. map written_group groups.items) result (read_each group_of (members_of_all tables.now)) }
{
    let mut groups = Vec::new(alloc);
    for members in tables {
        groups.push(read_group(alloc, members)?)?;
    }
    Ok(groups)
}

fn read_group(alloc: Global, members: &Table) -> Result<RawGroup, SettingRefusal>
    ensures { Gives written_group result (group_of (table_view members.now)) }
{
    let name = read_text(Key::BidderName, value_at(members, Key::BidderName)?)?;
    let count = number_at(members, Key::BidderCount, 1)?;
    let values = read_integers(
        alloc,
        Key::BidderValues,
        value_at(members, Key::BidderValues)?,
    )?;
    let weights = read_integers(
        alloc,
        Key::BidderWeights,
        value_at(members, Key::BidderWeights)?,
    )?;
    let worth = number_at(members, Key::BidderWorth, 0)?;
    Ok(RawGroup {
        name,
        count,
        values,
        weights,
        worth,
    })
}
