//! What one value of a document says, by the kind that its key demands.
ghost use Rattle.std.specs.Prelude.{◌≡◌, option_map, string_bytes};
ghost use Rattle.toml.specs.Data.{get_member};
ghost use Rattle.toml.specs.View.{view, table_view, items_view};
ghost use Rattle.md_setting.specs.Setting.{names_of, lists_of};
ghost use Rattle.md_toml.specs.Keys.{member_name};
ghost use Rattle.md_toml.specs.Reading.{Gives};
ghost use Rattle.md_toml.specs.Values.{text_in, integer_in, truth_value_in, table_in, list_in, each_item, members_of_all, value_at, defaulted};

use crate::{Key, SettingRefusal};
use std::alloc::Global;
use toml::{Table, Value};

/// The value of a key, where it stands.
pub(crate) fn member_at(table: &Table, key: Key) -> Option<&Value>
    ensures { option_map (λ value. view value.now) result ≡ get_member (member_name key) (table_view table.now) }
{
    table.get(key.member())
}

/// The value of a key that must stand.
pub(crate) fn value_at(table: &Table, key: Key) -> Result<&Value, SettingRefusal>
    ensures { Gives (λ value. view value.now) result (value_at key (table_view table.now)) }
{
    match member_at(table, key) {
        Some(value) => Ok(value),
        None => Err(SettingRefusal::Missing(key)),
    }
}

pub(crate) fn read_text(key: Key, value: &Value) -> Result<String, SettingRefusal>
    ensures { Gives string_bytes result (text_in key (view value.now)) }
{
    match value {
        Value::String(text) => Ok(text.clone()?),
        _ => Err(SettingRefusal::WrongKind(key)),
    }
}

pub(crate) fn read_integer(key: Key, value: &Value) -> Result<i64, SettingRefusal>
    ensures { Gives (λ x. x) result (integer_in key (view value.now)) }
{
    match value {
        Value::Integer(number) => Ok(*number),
        _ => Err(SettingRefusal::WrongKind(key)),
    }
}

/// A number that may be absent, and is then the one given.
pub(crate) fn number_at(members: &Table, key: Key, absent: i64) -> Result<i64, SettingRefusal>
    ensures { Gives (λ number. number) result (defaulted integer_in absent key (table_view members.now)) }
{
    match member_at(members, key) {
        Some(value) => read_integer(key, value),
        None => Ok(absent),
    }
}

pub(crate) fn read_truth_value(key: Key, value: &Value) -> Result<bool, SettingRefusal>
    ensures { Gives (λ x. x) result (truth_value_in key (view value.now)) }
{
    match value {
        Value::Boolean(holds) => Ok(*holds),
        _ => Err(SettingRefusal::WrongKind(key)),
    }
}

pub(crate) fn read_table(key: Key, value: &Value) -> Result<&Table, SettingRefusal>
    ensures { Gives (λ members. table_view members.now) result (table_in key (view value.now)) }
{
    match value {
        Value::Table(members) => Ok(members),
        _ => Err(SettingRefusal::WrongKind(key)),
    }
}

pub(crate) fn read_integers(
    alloc: Global,
    key: Key,
    value: &Value,
) -> Result<Vec<i64>, SettingRefusal>
    ensures { Gives (λ numbers. numbers.items) result (list_in integer_in key (view value.now)) }
{
    match value {
        Value::Array(items) => each_integer(alloc, key, items),
        _ => Err(SettingRefusal::WrongKind(key)),
    }
}

fn each_integer(alloc: Global, key: Key, items: &[Value]) -> Result<Vec<i64>, SettingRefusal>
    ensures { Gives (λ numbers. numbers.items) result (each_item (integer_in key) (items_view items.now)) }
{
    let mut numbers = Vec::new(alloc);
    for item in items {
        numbers.push(read_integer(key, item)?)?;
    }
    Ok(numbers)
}

pub(crate) fn read_texts(
    alloc: Global,
    key: Key,
    value: &Value,
) -> Result<Vec<String>, SettingRefusal>
    ensures { Gives (λ texts. names_of texts.items) result (list_in text_in key (view value.now)) }
{
    match value {
        Value::Array(items) => each_text(alloc, key, items),
        _ => Err(SettingRefusal::WrongKind(key)),
    }
}

fn each_text(alloc: Global, key: Key, items: &[Value]) -> Result<Vec<String>, SettingRefusal>
    ensures { Gives (λ texts. names_of texts.items) result (each_item (text_in key) (items_view items.now)) }
{
    let mut texts = Vec::new(alloc);
    for item in items {
        texts.push(read_text(key, item)?)?;
    }
    Ok(texts)
}

pub(crate) fn read_rows(
    alloc: Global,
    key: Key,
    value: &Value,
) -> Result<Vec<Vec<i64>>, SettingRefusal>
    ensures { Gives (λ rows. lists_of rows.items) result (list_in (list_in integer_in) key (view value.now)) }
{
    match value {
        Value::Array(items) => each_row(alloc, key, items),
        _ => Err(SettingRefusal::WrongKind(key)),
    }
}

fn each_row(alloc: Global, key: Key, items: &[Value]) -> Result<Vec<Vec<i64>>, SettingRefusal>
    ensures { Gives (λ rows. lists_of rows.items) result (each_item (list_in integer_in key) (items_view items.now)) }
{
    let mut rows = Vec::new(alloc);
    for item in items {
        rows.push(read_integers(alloc, key, item)?)?;
    }
    Ok(rows)
}

pub(crate) fn read_tables(
    alloc: Global,
    key: Key,
    value: &Value,
) -> Result<Vec<&Table>, SettingRefusal>
    ensures { Gives (λ tables. members_of_all tables.items) result (list_in table_in key (view value.now)) }
{
    match value {
        Value::Array(items) => each_table(alloc, key, items),
        _ => Err(SettingRefusal::WrongKind(key)),
    }
}

fn each_table<'a>(
    alloc: Global,
    key: Key,
    items: &'a [Value],
) -> Result<Vec<&'a Table>, SettingRefusal>
    ensures { Gives (λ tables. members_of_all tables.items) result (each_item (table_in key) (items_view items.now)) }
{
    let mut tables = Vec::new(alloc);
    for item in items {
        tables.push(read_table(key, item)?)?;
    }
    Ok(tables)
}
