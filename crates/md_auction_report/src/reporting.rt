//! What interim odds and payments do, all together.
ghost use Rattle.std.specs.Prelude.{◌↔◌, IfOk};
ghost use Rattle.md_setting.specs.Auction.{value_count};
ghost use Rattle.md_setting.specs.AuctionShaped.{IsAuction};
ghost use Rattle.md_lp.specs.Cuts.{AreCuts};
ghost use Rattle.md_border.specs.Odds.{IsInterim};
ghost use Rattle.md_unit_tables.specs.Numbers.{IsUnitNumber};
ghost use Rattle.md_answer.specs.Supplies.{units_in};
ghost use Rattle.md_auction_report.specs.Admissible.{IsTruthfulAndRational, MissesNothing, IsToldWhole};
ghost use Rattle.md_auction_report.specs.Mechanisms.{JudgesMechanisms, TellsMechanisms};
ghost use Rattle.md_auction_report.specs.ReportOf.{IsAuctionReportOf};
ghost use Rattle.md_auction_report.specs.Tellable.{IsAbout};

use crate::amount::Amount;
use crate::auction_report::AuctionReport;
use crate::averages::expected;
use crate::tight::tight;
use crate::types::types;
use crate::worst::{gain, loss};
use md_answer::Supply;
use md_border::Interim;
use md_lp::Sets;
use md_num::NoMemory;
use md_setting::Auction;
use md_unit_tables::unit_worth;
use std::alloc::Global;

impl AuctionReport {
    /// What is told of interim odds and payments of a sale, against the conditions of its reduced program with these cuts. Nothing
    /// but want of memory is an error: no sum passes 2^126, since there are at most 12 bidders, 12 units and 12 values, values and
    /// weights are at most 1,000,000, and odds and payments at most 2^62 - 1.
    pub fn new(
        alloc: Global,
        auction: &Auction,
        supply: &Supply,
        interim: &Interim,
        cuts: &Sets,
    ) -> Result<AuctionReport, NoMemory>
        requires fits { IsInterim auction.now interim.now }
        requires cuts { AreCuts (value_count auction.now) cuts.now }
        ensures parts { IfOk result (IsAuctionReportOf auction.now (units_in supply.now) interim.now cuts.now) }

        // What is told is about the auction, so that it has records.
        ensures about { IfOk result (IsAbout auction.now cuts.now) }

        // Which gains are told.
        ensures told { IfOk result (IsToldWhole auction.now) }

        // The odds and payments meet all conditions on truth and on taking part exactly where neither gain nor loss is above 0.
        ensures admissible { IfOk result (λ report. IsTruthfulAndRational auction.now (units_in supply.now) interim.now ↔ MissesNothing report) }

        // Each mechanism of the sale with the odds and payments is admissible exactly there.
        ensures mechanisms { IfOk result (JudgesMechanisms supply.now auction.now interim.now) }

        // Value, revenue and welfare are those of each such mechanism.
        ensures expected { IfOk result (TellsMechanisms supply.now auction.now interim.now) }
        ensures shaped { IfOk result (λ _. IsAuction auction.now) }
    {
        let report = made(alloc, auction, supply.units(), interim, cuts)?;
        Ok(report)
    }
}

fn made(
    alloc: Global,
    auction: &Auction,
    units: u32,
    interim: &Interim,
    cuts: &Sets,
) -> Result<AuctionReport, NoMemory>
    requires units { IsUnitNumber units }
    requires fits { IsInterim auction.now interim.now }
    requires cuts { AreCuts (value_count auction.now) cuts.now }
    ensures parts { IfOk result (IsAuctionReportOf auction.now units interim.now cuts.now) }
    ensures shaped { IfOk result (λ _. IsAuction auction.now) }
{
    Ok(AuctionReport {
        value: unit_worth(auction, units, interim),
        revenue: expected(auction, interim, Amount::Payment),
        welfare: expected(auction, interim, Amount::Item),
        types: types(alloc, auction, interim)?,
        gain: gain(auction, units, interim, cuts),
        loss: loss(auction, units, interim, cuts),
        tight: tight(alloc, auction, units, interim, cuts)?,
    })
}
