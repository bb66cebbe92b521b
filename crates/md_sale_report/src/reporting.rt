//! What interim odds and payments of a sale do, all together.
ghost use Rattle.std.specs.Prelude.{◌≡◌, ◌*ℤ◌, IfOk};
ghost use Rattle.md_math.specs.Divisors.{IsLeastTerms};
ghost use Rattle.md_setting.specs.Meaning.{total_of};
ghost use Rattle.md_setting.specs.Shaped.{IsShaped};
ghost use Rattle.md_asym_sale.specs.Sale.{IsSale};
ghost use Rattle.md_asym.specs.Gains.{AreSaleOdds, worth_by};
ghost use Rattle.md_report.specs.Admissible.{IsToldWhole};
ghost use Rattle.md_report.specs.ReportOf.{AreFigures};
ghost use Rattle.md_report.specs.Tellable.{IsAbout};
ghost use Rattle.md_sale_report.specs.OwnNumbers.{own_numbers};
ghost use Rattle.md_sale_report.specs.ReportOf.{IsSaleReportOf, TellsMechanisms, JudgesMechanisms};

use crate::cuts::tight_cuts;
use crate::own_numbers::own_numbers;
use crate::sale_report::SaleReport;
use md_asym::sale_worth;
use md_border::Interim;
use md_lp::Sets;
use md_num::NoMemory;
use md_report::Report;
use md_setting::Setting;
use std::alloc::Global;

impl SaleReport {
    /// What is told of interim odds and payments, by pair of an agent and a type, and of which cuts of a list hold with
    /// equality. Nothing but want of memory is an error.
    pub fn new(
        alloc: Global,
        setting: &Setting,
        interim: &Interim,
        cuts: &Sets,
    ) -> Result<SaleReport, NoMemory>
        requires sale { IsSale setting.now }
        requires fits { AreSaleOdds setting.now interim.now.den interim.now.odds interim.now.pays }
        ensures parts { IfOk result (IsSaleReportOf setting.now interim.now cuts.now) }

        // What is told is about the setting, so that it has records.
        ensures about { IfOk result (λ report. IsAbout setting.now report.figures) }

        // Which gains, losses and deficits are told.
        ensures told { IfOk result (λ report. IsToldWhole setting.now report.figures) }

        // It is the report of each mechanism with the odds and payments, whatever its denominator and its lotteries.
        ensures mechanisms { IfOk result (λ report. TellsMechanisms setting.now interim.now report.figures) }

        // Such a mechanism is admissible exactly where no gain and no loss is above 0.
        ensures judged { IfOk result (λ report. JudgesMechanisms setting.now interim.now report.figures) }
        ensures shaped { IfOk result (λ _. IsShaped setting.now) }
    {
        let figures = figures(alloc, setting, interim)?;
        let cuts = tight_cuts(alloc, setting, interim.den, &interim.odds, cuts)?;
        Ok(SaleReport { figures, cuts })
    }
}

// All but the cuts.
fn figures(alloc: Global, setting: &Setting, interim: &Interim) -> Result<Report, NoMemory>
    requires sale { IsSale setting.now }
    requires fits { AreSaleOdds setting.now interim.now.den interim.now.odds interim.now.pays }
    ensures figures { IfOk result (AreFigures setting.now (own_numbers setting.now interim.now)) }
    ensures value { IfOk result (λ report. report.value.num *ℤ (interim.now.den *ℤ total_of setting.now) ≡ worth_by setting.now interim.now.den interim.now.odds interim.now.pays *ℤ report.value.den) }
    ensures least { IfOk result (λ report. IsLeastTerms report.value.num report.value.den) }
    ensures about { IfOk result (IsAbout setting.now) }
    ensures told { IfOk result (IsToldWhole setting.now) }
    ensures shaped { IfOk result (λ _. IsShaped setting.now) }
{
    let numbers = own_numbers(alloc, setting, interim)?;
    let value = sale_worth(setting, interim.den, &interim.odds, &interim.pays);
    let report = Report::with_value(alloc, setting, &numbers, value)?;
    Ok(report)
}
