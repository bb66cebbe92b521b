//! The command `report`: what a mechanism does, and how far it is from truthful.
ghost use Rattle.std.specs.Prelude.{◌≡◌, ◌⊎◌, IfOk, IfErr};
ghost use Rattle.md_setting.specs.ByKind.{has_no_groups};
ghost use Rattle.md_setting.specs.Auction.{value_count};
ghost use Rattle.md_setting.specs.declared.file.SettingFile.TheVariants as files;
ghost use Rattle.md_lp.specs.Cuts.{AreCuts};
ghost use Rattle.md_border.specs.Odds.{IsInterim};
ghost use Rattle.md_mechanism_text.specs.Proposals.{IsProposedFor};
ghost use Rattle.md_cli_tell.specs.Reported.{IsReportable, reported_in};
ghost use Rattle.md_cli_tell.specs.Reporting.{IsInterimText, IsMechanismText, IsOwnReporting, IsReporting, IsReportStatus};
ghost use Rattle.md_cli_driver.specs.Refused.{refused, status_of};
ghost use Rattle.md_cli_driver.specs.Saying.{said};
ghost use Rattle.md_cli_driver.specs.declared.refusal.Refusal.TheVariants as refusal;

use crate::conditions::conditions_told;
use crate::realise::violated_text;
use crate::reported::{Reported, read_reported};
use crate::sale_report::tell_other;
use md_answer::Supply;
use md_auction_report::{AuctionReport, auction_report_text};
use md_border::Interim;
use md_cli_driver::{Answered, DONE, Refusal, TwoFiles, VIOLATED, has_no_groups};
use md_expost::{RealiseEnd, realise};
use md_lp::Sets;
use md_mechanism_text::Proposal;
use md_num::NoMemory;
use md_report::{Report, report_text};
use md_setting::{Auction, Setting, SettingFile};
use std::alloc::Global;

/// `report SETTING ANSWER`
#[derive(Drop)]
pub struct Tell;

impl TwoFiles for Tell {
    type Second = Reported;

    ghost is_served = { has_no_groups };

    ghost reading = { λ _. reported_in };

    ghost fits = { λ _. IsReportable };

    ghost says = { λ _. IsReporting };

    ghost own = { IsReportStatus };

    fn serves(&self, file: &SettingFile) -> bool {
        has_no_groups(file)
    }

    fn second(&self, alloc: Global, file: &SettingFile, bytes: &[u8]) -> Result<Reported, Refusal> {
        read_reported(alloc, file, bytes)
    }

    fn answer(
        &self,
        alloc: Global,
        file: &SettingFile,
        reported: &Reported,
    ) -> Result<Answered, Refusal> {
        told(alloc, file, reported)
    }
}

// What is told of a mechanism, or of odds and payments.
fn told(alloc: Global, file: &SettingFile, reported: &Reported) -> Result<Answered, Refusal>
    requires { IsReportable file.now reported.now }
    ensures reporting { IfOk result (λ answered. IsReporting file.now reported.now (said answered)) }
    ensures status { IfOk result (λ answered. IsReportStatus answered.status) }
    ensures refused { IfErr result (λ e. (e ≡ refusal.Memory) ⊎ (IsReporting file.now reported.now (refused e) × (status_of e ≡ 66))) }
{
    match file {
        SettingFile::General(setting) => general_told(alloc, setting, reported),
        SettingFile::Auction(auction) => Ok(auction_told(alloc, auction, reported)?),
        SettingFile::Bidders(_) => unreachable!(),
    }
}

// The same about a general setting.
fn general_told(alloc: Global, setting: &Setting, reported: &Reported) -> Result<Answered, Refusal>
    requires { IsReportable (files.General setting.now) reported.now }
    ensures reporting { IfOk result (λ answered. IsReporting (files.General setting.now) reported.now (said answered)) }
    ensures status { IfOk result (λ answered. IsReportStatus answered.status) }
    ensures refused { IfErr result (λ e. (e ≡ refusal.Memory) ⊎ (IsReporting (files.General setting.now) reported.now (refused e) × (status_of e ≡ 66))) }
{
    match reported {
        Reported::Mechanism(proposal) => Ok(Answered {
            status: DONE,
            text: mechanism_text(alloc, setting, proposal)?,
        }),
        Reported::Other(text) => tell_other(alloc, setting, text),
        Reported::Odds { .. } => unreachable!(),
        Reported::Own(_) => unreachable!(),
    }
}

// The same about an auction.
fn auction_told(alloc: Global, auction: &Auction, reported: &Reported) -> Result<Answered, NoMemory>
    requires { IsReportable (files.Auction auction.now) reported.now }
    ensures reporting { IfOk result (λ answered. IsReporting (files.Auction auction.now) reported.now (said answered)) }
    ensures status { IfOk result (λ answered. IsReportStatus answered.status) }
{
    match reported {
        Reported::Odds { interim, cuts } => Ok(Answered {
            status: DONE,
            text: interim_text(alloc, auction, &Supply::Item, interim, cuts)?,
        }),
        Reported::Own(interim) => own_told(alloc, auction, interim),
        Reported::Mechanism(_) => unreachable!(),
        Reported::Other(_) => unreachable!(),
    }
}

// The records about a mechanism, and about the conditions of the designer that it is to meet.
fn mechanism_text(
    alloc: Global,
    setting: &Setting,
    proposal: &Proposal,
) -> Result<Vec<u8>, NoMemory>
    requires { IsProposedFor setting.now proposal.now }
    ensures { IfOk result (λ text. IsMechanismText setting.now proposal.now text.items) }
{
    let report = Report::new(alloc, setting, proposal.mechanism())?;
    let conditions = conditions_told(alloc, setting, proposal)?;
    let text = report_text(alloc, setting, &report, conditions)?;
    Ok(text)
}

/// The records about odds and payments of what is sold, with some cuts.
pub(crate) fn interim_text(
    alloc: Global,
    auction: &Auction,
    supply: &Supply,
    interim: &Interim,
    cuts: &Sets,
) -> Result<Vec<u8>, NoMemory>
    requires fits { IsInterim auction.now interim.now }
    requires cuts { AreCuts (value_count auction.now) cuts.now }
    ensures { IfOk result (λ text. IsInterimText supply.now auction.now interim.now cuts.now text.items) }
{
    let report = AuctionReport::new(alloc, auction, supply, interim, cuts)?;
    let text = auction_report_text(alloc, auction, cuts, &report)?;
    Ok(text)
}

// What is told of an auction of the designer's own: the set of values that asks for too much, where no auction has its odds.
fn own_told(alloc: Global, auction: &Auction, interim: &Interim) -> Result<Answered, NoMemory>
    requires { IsInterim auction.now interim.now }
    ensures reporting { IfOk result (λ answered. IsOwnReporting auction.now interim.now (said answered)) }
    ensures status { IfOk result (λ answered. IsReportStatus answered.status) }
{
    match realise(alloc, auction, interim)? {
        RealiseEnd::Table(_) => Ok(Answered {
            status: DONE,
            text: interim_text(alloc, auction, &Supply::Item, interim, &Sets::new(alloc))?,
        }),
        RealiseEnd::Violated(set) => Ok(Answered {
            status: VIOLATED,
            text: violated_text(alloc, auction, interim, set)?,
        }),
    }
}
