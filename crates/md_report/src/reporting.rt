//! What a mechanism does, all together.
ghost use Rattle.std.specs.Prelude.{◌≡◌, ◌↔◌, IfOk};
ghost use Rattle.md_setting.specs.Shaped.{IsShaped};
ghost use Rattle.md_mech.specs.Accepted.{IsAccepted};
ghost use Rattle.md_mech.specs.Admissible.{IsAdmissible};
ghost use Rattle.md_report.specs.Admissible.{MissesNothing, IsToldWhole};
ghost use Rattle.md_report.specs.Numbers.{AreNumbers};
ghost use Rattle.md_report.specs.ReportOf.{AreFigures, IsReportOf};
ghost use Rattle.md_report.specs.Tellable.{IsAbout};

use crate::amount::Sum;
use crate::averages::expected;
use crate::blocks::worst_by_agent;
use crate::demand::Demand;
use crate::least_paid::least_paid;
use crate::report::Report;
use crate::tight::tight;
use crate::types::types;
use md_mech::{Mechanism, worth};
use md_num::{Frac, NoMemory};
use md_setting::Setting;
use std::alloc::Global;

impl Report {
    /// What is told of a mechanism. Nothing but want of memory is an error: no sum of a mechanism's numbers passes 2^125, since
    /// there are at most 1,024 profiles, 6 agents and 16 outcomes, weights and utilities are at most 1,000,000 and the numbers of
    /// a mechanism at most 2^62 - 1.
    pub fn new(alloc: Global, setting: &Setting, mechanism: &Mechanism) -> Result<Report, NoMemory>
        requires { IsAccepted setting.now mechanism.now }
        ensures parts { IfOk result (IsReportOf setting.now mechanism.now) }

        // What is told is about the setting, so that it has records.
        ensures about { IfOk result (IsAbout setting.now) }

        // Which gains, losses and deficits are told.
        ensures told { IfOk result (IsToldWhole setting.now) }

        // The mechanism is admissible exactly where no gain and no loss is above 0, and no deficit below.
        ensures admissible { IfOk result (λ report. IsAdmissible setting.now mechanism.now ↔ MissesNothing report) }
    {
        let report = made(alloc, setting, mechanism, worth(setting, mechanism))?;
        Ok(report)
    }

    /// What is told of numbers in the form of a mechanism, with a value that is known. Chances of a profile need not add to the
    /// whole. Nothing but want of memory is an error.
    pub fn with_value(
        alloc: Global,
        setting: &Setting,
        numbers: &Mechanism,
        value: Frac,
    ) -> Result<Report, NoMemory>
        requires { AreNumbers setting.now numbers.now }
        ensures figures { IfOk result (AreFigures setting.now numbers.now) }
        ensures value { IfOk result (λ report. report.value ≡ value) }
        ensures about { IfOk result (IsAbout setting.now) }
        ensures told { IfOk result (IsToldWhole setting.now) }
    {
        let report = made(alloc, setting, numbers, value)?;
        Ok(report)
    }
}

fn made(
    alloc: Global,
    setting: &Setting,
    mechanism: &Mechanism,
    value: Frac,
) -> Result<Report, NoMemory>
    requires { AreNumbers setting.now mechanism.now }
    ensures figures { IfOk result (AreFigures setting.now mechanism.now) }
    ensures value { IfOk result (λ report. report.value ≡ value) }
    ensures shaped { IfOk result (λ _. IsShaped setting.now) }
{
    Ok(Report {
        value,
        revenue: expected(setting, mechanism, Sum::Payments),
        welfare: expected(setting, mechanism, Sum::Welfare),
        types: types(alloc, setting, mechanism)?,
        gains: worst_by_agent(alloc, setting, mechanism, Demand::Truthful)?,
        losses: worst_by_agent(alloc, setting, mechanism, Demand::Willing)?,
        deficit: least_paid(setting, mechanism),
        tight: tight(alloc, setting, mechanism)?,
    })
}
