//! Members put into a table, by their key.
ghost use Rattle.std.specs.Prelude.{◌≡◌, ◌≤◌, ◌<◌, IfOk, OnOk, map, pos, ℕ, length, slice_index};
ghost use Rattle.toml.specs.Data.{string, integer, boolean, table};
ghost use Rattle.toml.specs.View.{view, table_view};
ghost use Rattle.md_setting.specs.Setting.{names_of, lists_of};
ghost use Rattle.md_toml.specs.Writing.{put, numbers_data, texts_data, rows_data};

use crate::Key;
use md_num::NoMemory;
use std::alloc::Global;
use toml::{Table, Value};

/// Puts the value of a key into a table.
pub(crate) fn put(
    alloc: Global,
    members: &mut Table,
    key: Key,
    value: Value,
) -> Result<(), NoMemory>
    ensures { OnOk result (table_view members.new ≡ put key (view value) (table_view members.old)) }
{
    let name = String::from_str(alloc, key.member())?;
    members.insert(name, value)?;
    Ok(())
}

pub(crate) fn put_text(
    alloc: Global,
    members: &mut Table,
    key: Key,
    text: &str,
) -> Result<(), NoMemory>
    ensures { OnOk result (table_view members.new ≡ put key (string text.now) (table_view members.old)) }
{
    put(alloc, members, key, Value::string(alloc, text)?)
}

pub(crate) fn put_integer(
    alloc: Global,
    members: &mut Table,
    key: Key,
    number: i64,
) -> Result<(), NoMemory>
    ensures { OnOk result (table_view members.new ≡ put key (integer number) (table_view members.old)) }
{
    put(alloc, members, key, Value::Integer(number))
}

pub(crate) fn put_numbers(
    alloc: Global,
    members: &mut Table,
    key: Key,
    numbers: &[i64],
) -> Result<(), NoMemory>
    ensures { OnOk result (table_view members.new ≡ put key (numbers_data numbers.now) (table_view members.old)) }
{
    put(alloc, members, key, numbers_value(alloc, numbers)?)
}

pub(crate) fn put_texts(
    alloc: Global,
    members: &mut Table,
    key: Key,
    texts: &[String],
) -> Result<(), NoMemory>
    ensures { OnOk result (table_view members.new ≡ put key (texts_data (names_of texts.now)) (table_view members.old)) }
{
    put(alloc, members, key, texts_value(alloc, texts)?)
}

pub(crate) fn put_rows(
    alloc: Global,
    members: &mut Table,
    key: Key,
    rows: &[Vec<i64>],
) -> Result<(), NoMemory>
    ensures { OnOk result (table_view members.new ≡ put key (rows_data (lists_of rows.now)) (table_view members.old)) }
{
    put(alloc, members, key, rows_value(alloc, rows)?)
}

fn numbers_value(alloc: Global, numbers: &[i64]) -> Result<Value, NoMemory>
    ensures { IfOk result (λ value. view value ≡ numbers_data numbers.now) }
{
    let mut items = Vec::new(alloc);
    for number in numbers {
        items.push(Value::Integer(*number))?;
    }
    Ok(Value::Array(items))
}

/// Sizes, none of which is beyond the numbers of a document.
pub(crate) fn sizes_value(alloc: Global, sizes: &[u64]) -> Result<Value, NoMemory>
    requires { (k : ℕ) → k < length sizes.now → slice_index sizes.now k ≤ 1000000 }
    ensures { IfOk result (λ value. view value ≡ numbers_data (map pos sizes.now)) }
{
    let mut items = Vec::new(alloc);
    for size in sizes {
        items.push(Value::Integer(*size as i64))?;
    }
    Ok(Value::Array(items))
}

fn texts_value(alloc: Global, texts: &[String]) -> Result<Value, NoMemory>
    ensures { IfOk result (λ value. view value ≡ texts_data (names_of texts.now)) }
{
    let mut items = Vec::new(alloc);
    for text in texts {
        items.push(Value::string(alloc, text.as_str())?)?;
    }
    Ok(Value::Array(items))
}

fn rows_value(alloc: Global, rows: &[Vec<i64>]) -> Result<Value, NoMemory>
    ensures { IfOk result (λ value. view value ≡ rows_data (lists_of rows.now)) }
{
    let mut items = Vec::new(alloc);
    for row in rows {
        items.push(numbers_value(alloc, row)?)?;
    }
    Ok(Value::Array(items))
}
