//! The records of a report on a sale.
ghost use Rattle.std.specs.Prelude.{◌≡◌, ◌++◌, ◌∷◌, IfOk, OnOk, map};
ghost use Rattle.md_num.specs.WholeText.{text_of};
ghost use Rattle.md_report.specs.Tellable.{IsAbout};
ghost use Rattle.md_sale_report.specs.Records.{cut_name, cut_record, sale_report_text};

use crate::sale_report::SaleReport;
use md_num::{NoMemory, write_whole};
use md_records::Row;
use md_report::report_text;
use md_setting::Setting;
use std::alloc::Global;

/// A report on a sale as a text of records: those of its figures, and in front of the end the tight cuts. docs/FORMATS.md states
/// them.
pub fn sale_report_text(
    alloc: Global,
    setting: &Setting,
    report: &SaleReport,
) -> Result<Vec<u8>, NoMemory>
    requires { IsAbout setting.now report.now.figures }
    ensures { IfOk result (λ text. text.items ≡ sale_report_text setting.now report.now) }
{
    let cuts = cut_records(alloc, &report.cuts)?;
    report_text(alloc, setting, &report.figures, cuts)
}

// The records of the tight cuts.
fn cut_records(alloc: Global, cuts: &[u32]) -> Result<Vec<Row>, NoMemory>
    ensures { IfOk result (λ rows. rows.items ≡ map cut_record cuts.now) }
{
    let mut rows = Vec::new(alloc);
    for set in cuts {
        rows.push(cut_record(alloc, *set)?)?;
    }
    Ok(rows)
}

fn cut_record(alloc: Global, set: u32) -> Result<Row, NoMemory>
    ensures { IfOk result (λ row. row ≡ cut_record set) }
{
    let name = cut_name(alloc, set)?;
    Row::new(alloc).with(b"tight")?.with(&name)
}

fn cut_name(alloc: Global, set: u32) -> Result<Vec<u8>, NoMemory>
    ensures { IfOk result (λ name. name.items ≡ cut_name set) }
{
    let mut name = Vec::from_slice(alloc, b"cut")?;
    push_number(&mut name, i128::from(set))?;
    Ok(name)
}

// A slash and a number.
fn push_number(name: &mut Vec<u8>, x: i128) -> Result<(), NoMemory>
    ensures { OnOk result (name.new.items ≡ name.old.items ++ 47 ∷ text_of x) }
{
    name.push(b'/')?;
    write_whole(x, name)?;
    Ok(())
}
