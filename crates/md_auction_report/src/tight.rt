//! Which conditions hold with equality.
ghost use Rattle.std.specs.Prelude.{◌≡◌, ◌<◌, ◌≤◌, ◌↔◌, ◌++◌, pos, IfOk, OnOk, IsTrue, length, slice_get};
ghost use Rattle.md_setting.specs.Auction.{value_count};
ghost use Rattle.md_lp.specs.Cuts.{AreCuts};
ghost use Rattle.md_border.specs.Odds.{IsInterim};
ghost use Rattle.md_reduced.specs.Conditions.{conditions_of};
ghost use Rattle.md_auction_report.specs.Tight.{is_tight, tight_at, tight_rows};

use crate::greatest_rows::missed_in_row;
use md_border::Interim;
use md_lp::Sets;
use md_num::NoMemory;
use md_reduced::row_count;
use md_setting::Auction;
use std::alloc::Global;

/// The rows of the conditions of the reduced program of so many units, with these cuts, that hold with equality, ascending.
pub(crate) fn tight(
    alloc: Global,
    auction: &Auction,
    units: u32,
    interim: &Interim,
    cuts: &Sets,
) -> Result<Vec<u32>, NoMemory>
    requires few_units { units ≤ 12 }
    requires fits { IsInterim auction.now interim.now }
    requires cuts { AreCuts (value_count auction.now) cuts.now }
    ensures { IfOk result (λ rows. rows.items ≡ tight_rows auction.now units interim.now cuts.now) }
{
    let mut rows = Vec::new(alloc);
    for row in 0..row_count(auction, cuts) {
        push_if_tight(&mut rows, auction, units, interim, cuts, row)?;
    }
    Ok(rows)
}

// Adds a row where its condition holds with equality.
fn push_if_tight(
    rows: &mut Vec<u32>,
    auction: &Auction,
    units: u32,
    interim: &Interim,
    cuts: &Sets,
    row: u32,
) -> Result<(), NoMemory>
    requires few_units { units ≤ 12 }
    requires fits { IsInterim auction.now interim.now }
    requires cuts { AreCuts (value_count auction.now) cuts.now }
    requires inside { row < length (conditions_of (value_count auction.now) cuts.now) }
    ensures { OnOk result (rows.new.items ≡ rows.old.items ++ tight_at auction.now units interim.now cuts.now row) }
{
    if !is_tight(auction, units, interim, cuts, row) {
        return Ok(());
    }
    rows.push(row)?;
    Ok(())
}

// Whether the condition of a row holds with equality.
fn is_tight(auction: &Auction, units: u32, interim: &Interim, cuts: &Sets, row: u32) -> bool
    requires few_units { units ≤ 12 }
    requires fits { IsInterim auction.now interim.now }
    requires cuts { AreCuts (value_count auction.now) cuts.now }
    requires inside { row < length (conditions_of (value_count auction.now) cuts.now) }
    ensures { result ≡ is_tight auction.now units interim.now (slice_get (conditions_of (value_count auction.now) cuts.now) row) }
{
    is_zero(missed_in_row(auction, units, interim, cuts, row))
}

fn is_zero(number: i128) -> bool
    ensures { IsTrue result ↔ (number ≡ pos 0) }
{
    number == 0
}
