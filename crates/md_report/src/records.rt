//! The records of a report.
ghost use Rattle.std.specs.Prelude.{◌≡◌, ◌<◌, ◌++◌, IfOk, OnOk, length, map, slice_get};
ghost use Rattle.std.specs.List.{All};
ghost use Rattle.md_mech.specs.Rows.{conditions_of};
ghost use Rattle.md_report.specs.Records.{head_records, name_in, number_record, report_records, report_text, tight_record, type_record};
ghost use Rattle.md_report.specs.Tellable.{IsAbout, IsTypeIn};

use crate::report::Report;
use crate::type_numbers::TypeNumbers;
use crate::worst_records::{push_deficit, push_worst, with_fraction};
use md_mech::row_name;
use md_num::{Frac, NoMemory};
use md_records::{Row, write_records};
use md_setting::Setting;
use std::alloc::Global;

/// A report as a text of records: the value, the revenue, the welfare, what each type gets and pays, the greatest gains and
/// losses, the deficit, the tight conditions, the records that are given to stand in front of the end, and the end. docs/FORMATS.md
/// states them.
pub fn report_text(
    alloc: Global,
    setting: &Setting,
    report: &Report,
    more: Vec<Row>,
) -> Result<Vec<u8>, NoMemory>
    requires { IsAbout setting.now report.now }
    ensures { IfOk result (λ text. text.items ≡ report_text setting.now report.now more.items) }
{
    let records = records(alloc, setting, report, more)?;
    write_records(alloc, &records)
}

// All records of a report, with some more in front of the end.
fn records(
    alloc: Global,
    setting: &Setting,
    report: &Report,
    mut more: Vec<Row>,
) -> Result<Vec<Row>, NoMemory>
    requires { IsAbout setting.now report.now }
    ensures { IfOk result (λ records. records.items ≡ report_records setting.now report.now more.items) }
{
    let mut rows = heads(alloc, report)?;
    push_types(alloc, &mut rows, setting, &report.types)?;
    push_worst(alloc, &mut rows, setting, &report.gains)?;
    push_worst(alloc, &mut rows, setting, &report.losses)?;
    push_deficit(alloc, &mut rows, setting, &report.deficit)?;
    push_tight(alloc, &mut rows, setting, &report.tight)?;
    rows.append(&mut more)?;
    rows.push(Row::new(alloc).with(b"end")?)?;
    Ok(rows)
}

// The value, the revenue and the welfare.
fn heads(alloc: Global, report: &Report) -> Result<Vec<Row>, NoMemory>
    ensures { IfOk result (λ rows. rows.items ≡ head_records report.now) }
{
    let mut rows = Vec::new(alloc);
    rows.push(number_record(alloc, b"value", report.value)?)?;
    rows.push(number_record(alloc, b"revenue", report.revenue)?)?;
    rows.push(number_record(alloc, b"welfare", report.welfare)?)?;
    Ok(rows)
}

/// A record of a word and a fraction.
pub fn number_record(alloc: Global, word: &[u8], value: Frac) -> Result<Row, NoMemory>
    ensures { IfOk result (λ row. row ≡ number_record word.now value) }
{
    let head = Row::new(alloc).with(word)?;
    with_fraction(head, value)
}

// What each type gets and pays.
fn push_types(
    alloc: Global,
    rows: &mut Vec<Row>,
    setting: &Setting,
    types: &[TypeNumbers],
) -> Result<(), NoMemory>
    requires { All (IsTypeIn setting.now) types.now }
    ensures { OnOk result (rows.new.items ≡ rows.old.items ++ map (type_record setting.now) types.now) }
{
    for told in types {
        rows.push(type_record(alloc, setting, told)?)?;
    }
    Ok(())
}

fn type_record(alloc: Global, setting: &Setting, told: &TypeNumbers) -> Result<Row, NoMemory>
    requires { IsTypeIn setting.now told.now }
    ensures { IfOk result (λ row. row ≡ type_record setting.now told.now) }
{
    let head = Row::new(alloc)
        .with(b"type")?
        .with(setting.agent_name(told.agent).as_bytes())?
        .with(setting.type_name(told.agent, told.kind).as_bytes())?;
    let gets = with_fraction(head, told.utility)?;
    with_fraction(gets, told.payment)
}

// The conditions that hold with equality.
fn push_tight(
    alloc: Global,
    rows: &mut Vec<Row>,
    setting: &Setting,
    tight: &[u32],
) -> Result<(), NoMemory>
    requires { All (λ row. row < length (conditions_of setting.now)) tight.now }
    ensures { OnOk result (rows.new.items ≡ rows.old.items ++ map (tight_record setting.now) tight.now) }
{
    for row in tight {
        rows.push(tight_record(alloc, setting, *row)?)?;
    }
    Ok(())
}

fn tight_record(alloc: Global, setting: &Setting, row: u32) -> Result<Row, NoMemory>
    requires { row < length (conditions_of setting.now) }
    ensures { IfOk result (λ fields. fields ≡ tight_record setting.now row) }
{
    let name = name_of_row(alloc, setting, row)?;
    Row::new(alloc).with(b"tight")?.with(&name)
}

fn name_of_row(alloc: Global, setting: &Setting, row: u32) -> Result<Vec<u8>, NoMemory>
    requires { row < length (conditions_of setting.now) }
    ensures { IfOk result (λ name. name.items ≡ name_in setting.now (slice_get (conditions_of setting.now) row)) }
{
    let name = row_name(alloc, setting, row)?;
    Ok(name)
}
