//! The command `realise`: a mass table that has interim odds of an auction, or the set of values that breaks Border's
//! condition most.
ghost use Rattle.std.specs.Prelude.{◌≡◌, ◌<◌, ◌^◌, ◌∷◌, [], IfOk};
ghost use Rattle.md_setting.specs.ByKind.{WhereAuction};
ghost use Rattle.md_setting.specs.Auction.{value_count};
ghost use Rattle.md_border.specs.Odds.{IsInterim};
ghost use Rattle.md_expost.specs.Masses.{AreMasses};
ghost use Rattle.md_records.specs.Written.{text_of_records};
ghost use Rattle.md_cli_driver.specs.Reading.{is_auction};
ghost use Rattle.md_cli_tell.specs.Realising.{IsRealise, IsRealiseStatus, IsRealising, odds_in, table_rows, violated_row};
ghost use Rattle.md_cli_driver.specs.Saying.{said};

use md_answer::{push_masses, read_odds};
use md_border::{Interim, excess};
use md_cli_driver::{Answered, DONE, Refusal, TwoFiles, VIOLATED, auction, is_auction};
use md_counts::Counts;
use md_expost::{Masses, RealiseEnd, realise};
use md_num::NoMemory;
use md_parts::push_numbers;
use md_records::write_records;
use md_setting::{Auction, SettingFile};
use std::alloc::Global;

/// `realise SETTING ODDS`
#[derive(Drop)]
pub struct Realise;

impl TwoFiles for Realise {
    type Second = Interim;

    ghost is_served = { is_auction };

    ghost reading = { λ _. odds_in };

    ghost fits = { λ _ file interim. WhereAuction (λ a. IsInterim a interim) file };

    ghost says = { λ _. IsRealise };

    ghost own = { IsRealiseStatus };

    fn serves(&self, file: &SettingFile) -> bool {
        is_auction(file)
    }

    fn second(&self, alloc: Global, file: &SettingFile, bytes: &[u8]) -> Result<Interim, Refusal> {
        Ok(read_odds(alloc, bytes, auction(file))?)
    }

    fn answer(
        &self,
        alloc: Global,
        file: &SettingFile,
        interim: &Interim,
    ) -> Result<Answered, Refusal> {
        Ok(realised(alloc, auction(file), interim)?)
    }
}

// What comes of the odds.
fn realised(alloc: Global, auction: &Auction, interim: &Interim) -> Result<Answered, NoMemory>
    requires { IsInterim auction.now interim.now }
    ensures realising { IfOk result (λ answered. IsRealising auction.now interim.now (said answered)) }
    ensures status { IfOk result (λ answered. IsRealiseStatus answered.status) }
{
    match realise(alloc, auction, interim)? {
        RealiseEnd::Table(masses) => Ok(Answered {
            status: DONE,
            text: table_text(alloc, auction, &masses)?,
        }),
        RealiseEnd::Violated(set) => Ok(Answered {
            status: VIOLATED,
            text: violated_text(alloc, auction, interim, set)?,
        }),
    }
}

// The records of a mass table.
fn table_text(alloc: Global, auction: &Auction, masses: &Masses) -> Result<Vec<u8>, NoMemory>
    requires { AreMasses auction.now masses.now }
    ensures { IfOk result (λ text. text.items ≡ text_of_records (table_rows auction.now masses.now)) }
{
    let counts = Counts::of(alloc, auction)?;
    let mut rows = Vec::new(alloc);
    push_numbers(alloc, &mut rows, "realise", &[masses.den])?;
    push_masses(alloc, &mut rows, auction, &counts, masses)?;
    push_numbers(alloc, &mut rows, "end", &[])?;
    write_records(alloc, &rows)
}

/// The record of a violated set.
pub(crate) fn violated_text(
    alloc: Global,
    auction: &Auction,
    interim: &Interim,
    set: u32,
) -> Result<Vec<u8>, NoMemory>
    requires fits { IsInterim auction.now interim.now }
    requires inside { set < 2 ^ value_count auction.now }
    ensures { IfOk result (λ text. text.items ≡ text_of_records (violated_row auction.now interim.now set ∷ [])) }
{
    let mut rows = Vec::new(alloc);
    let numbers = [i128::from(set), excess(auction, interim, set), interim.den];
    push_numbers(alloc, &mut rows, "violated", &numbers)?;
    write_records(alloc, &rows)
}
