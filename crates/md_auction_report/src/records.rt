//! The records of a report on an auction.
ghost use Rattle.std.specs.Prelude.{◌≡◌, ◌<◌, ◌++◌, IfOk, OnOk, length, map, slice_get};
ghost use Rattle.std.specs.List.{All};
ghost use Rattle.md_setting.specs.Auction.{value_count};
ghost use Rattle.md_lp.specs.Cuts.{AreCuts};
ghost use Rattle.md_reduced.specs.Conditions.{conditions_of, IsInside};
ghost use Rattle.md_reduced.specs.declared.condition.ReducedCondition.TheVariants.{Truth, Rational};
ghost use Rattle.md_auction_report.specs.Records.{head_records, worst_head, worst_record, told_records, name_in, report_records, report_text, tight_record, type_record};
ghost use Rattle.md_auction_report.specs.Tellable.{IsAbout, IsTold};

use crate::auction_report::AuctionReport;
use crate::greatest::Greatest;
use crate::value_numbers::ValueNumbers;
use md_lp::Sets;
use md_num::NoMemory;
use md_records::{Row, write_records};
use md_reduced::{ReducedCondition, row_name};
use md_report::{number_record, with_fraction};
use md_setting::Auction;
use std::alloc::Global;

/// A report on an auction as a text of records: the value, the revenue, the welfare, what a bidder with each value gets and
/// pays, the greatest gain and loss, the tight conditions and an end. docs/FORMATS.md states them.
pub fn auction_report_text(
    alloc: Global,
    auction: &Auction,
    cuts: &Sets,
    report: &AuctionReport,
) -> Result<Vec<u8>, NoMemory>
    requires cuts { AreCuts (value_count auction.now) cuts.now }
    requires about { IsAbout auction.now cuts.now report.now }
    ensures { IfOk result (λ text. text.items ≡ report_text auction.now cuts.now report.now) }
{
    let records = records(alloc, auction, cuts, report)?;
    write_records(alloc, &records)
}

// All records of a report.
fn records(
    alloc: Global,
    auction: &Auction,
    cuts: &Sets,
    report: &AuctionReport,
) -> Result<Vec<Row>, NoMemory>
    requires cuts { AreCuts (value_count auction.now) cuts.now }
    requires about { IsAbout auction.now cuts.now report.now }
    ensures { IfOk result (λ records. records.items ≡ report_records auction.now cuts.now report.now) }
{
    let mut rows = heads(alloc, report)?;
    push_types(alloc, &mut rows, auction, &report.types)?;
    push_told(alloc, &mut rows, auction, &report.gain)?;
    rows.push(worst_record(alloc, auction, &report.loss)?)?;
    push_tight(alloc, &mut rows, auction, cuts, &report.tight)?;
    rows.push(Row::new(alloc).with(b"end")?)?;
    Ok(rows)
}

// The value, the revenue and the welfare.
fn heads(alloc: Global, report: &AuctionReport) -> Result<Vec<Row>, NoMemory>
    ensures { IfOk result (λ rows. rows.items ≡ head_records report.now) }
{
    let mut rows = Vec::new(alloc);
    rows.push(number_record(alloc, b"value", report.value)?)?;
    rows.push(number_record(alloc, b"revenue", report.revenue)?)?;
    rows.push(number_record(alloc, b"welfare", report.welfare)?)?;
    Ok(rows)
}

// What a bidder with each value gets and pays.
fn push_types(
    alloc: Global,
    rows: &mut Vec<Row>,
    auction: &Auction,
    types: &[ValueNumbers],
) -> Result<(), NoMemory>
    requires { All (λ told. told.kind < value_count auction.now) types.now }
    ensures { OnOk result (rows.new.items ≡ rows.old.items ++ map (type_record auction.now) types.now) }
{
    for told in types {
        rows.push(type_record(alloc, auction, told)?)?;
    }
    Ok(())
}

fn type_record(alloc: Global, auction: &Auction, told: &ValueNumbers) -> Result<Row, NoMemory>
    requires { told.now.kind < value_count auction.now }
    ensures { IfOk result (λ row. row ≡ type_record auction.now told.now) }
{
    let head = Row::new(alloc)
        .with(b"type")?
        .with_number(i128::from(auction.value(told.kind)))?;
    let gets = with_fraction(head, told.utility)?;
    with_fraction(gets, told.payment)
}

// The record of what is missed by most, if it is told.
fn push_told(
    alloc: Global,
    rows: &mut Vec<Row>,
    auction: &Auction,
    told: &Option<Greatest>,
) -> Result<(), NoMemory>
    requires { IsTold auction.now told.now }
    ensures { OnOk result (rows.new.items ≡ rows.old.items ++ told_records auction.now told.now) }
{
    if let Some(greatest) = told {
        rows.push(worst_record(alloc, auction, greatest)?)?;
    }
    Ok(())
}

fn worst_record(alloc: Global, auction: &Auction, greatest: &Greatest) -> Result<Row, NoMemory>
    requires { IsInside (value_count auction.now) greatest.now.condition }
    ensures { IfOk result (λ row. row ≡ worst_record auction.now greatest.now) }
{
    let head = head(alloc, auction, greatest.condition)?;
    with_fraction(head, greatest.amount)
}

// Which condition it is.
fn head(alloc: Global, auction: &Auction, condition: ReducedCondition) -> Result<Row, NoMemory>
    requires { IsInside (value_count auction.now) condition }
    ensures { IfOk result (λ row. row ≡ worst_head auction.now condition) }
{
    match condition {
        ReducedCondition::Truth { kind, other } => gain_head(alloc, auction, kind, other),
        ReducedCondition::Rational { kind } => loss_head(alloc, auction, kind),
        ReducedCondition::Cut { set: _ } => Ok(Row::new(alloc)),
    }
}

fn gain_head(alloc: Global, auction: &Auction, kind: u32, other: u32) -> Result<Row, NoMemory>
    requires kind_in { kind < value_count auction.now }
    requires other_in { other < value_count auction.now }
    ensures { IfOk result (λ row. row ≡ worst_head auction.now (Truth kind other)) }
{
    Row::new(alloc)
        .with(b"gain")?
        .with_number(i128::from(auction.value(kind)))?
        .with_number(i128::from(auction.value(other)))
}

fn loss_head(alloc: Global, auction: &Auction, kind: u32) -> Result<Row, NoMemory>
    requires { kind < value_count auction.now }
    ensures { IfOk result (λ row. row ≡ worst_head auction.now (Rational kind)) }
{
    Row::new(alloc)
        .with(b"loss")?
        .with_number(i128::from(auction.value(kind)))
}

// The conditions that hold with equality.
fn push_tight(
    alloc: Global,
    rows: &mut Vec<Row>,
    auction: &Auction,
    cuts: &Sets,
    tight: &[u32],
) -> Result<(), NoMemory>
    requires cuts { AreCuts (value_count auction.now) cuts.now }
    requires inside { All (λ row. row < length (conditions_of (value_count auction.now) cuts.now)) tight.now }
    ensures { OnOk result (rows.new.items ≡ rows.old.items ++ map (tight_record auction.now cuts.now) tight.now) }
{
    for row in tight {
        rows.push(tight_record(alloc, auction, cuts, *row)?)?;
    }
    Ok(())
}

fn tight_record(alloc: Global, auction: &Auction, cuts: &Sets, row: u32) -> Result<Row, NoMemory>
    requires cuts { AreCuts (value_count auction.now) cuts.now }
    requires inside { row < length (conditions_of (value_count auction.now) cuts.now) }
    ensures { IfOk result (λ fields. fields ≡ tight_record auction.now cuts.now row) }
{
    let name = name_of_row(alloc, auction, cuts, row)?;
    Row::new(alloc).with(b"tight")?.with(&name)
}

fn name_of_row(alloc: Global, auction: &Auction, cuts: &Sets, row: u32) -> Result<Vec<u8>, NoMemory>
    requires cuts { AreCuts (value_count auction.now) cuts.now }
    requires inside { row < length (conditions_of (value_count auction.now) cuts.now) }
    ensures { IfOk result (λ name. name.items ≡ name_in auction.now (slice_get (conditions_of (value_count auction.now) cuts.now) row)) }
{
    let name = row_name(alloc, auction, cuts, row)?;
    Ok(name)
}
