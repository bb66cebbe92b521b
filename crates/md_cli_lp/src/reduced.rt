//! The records of the reduced program of an auction.
ghost use Rattle.std.specs.Prelude.{◌≡◌, IfOk, length};
ghost use Rattle.md_setting.specs.Auction.{value_count};
ghost use Rattle.md_lp.specs.Cuts.{AreCuts};
ghost use Rattle.md_reduced.specs.Conditions.{conditions_of};
ghost use Rattle.md_cli_lp.specs.ProgramTexts.{texts_of};
ghost use Rattle.md_cli_lp.specs.ReducedTexts.{IsReducedListing, reduced_names};

use crate::listing::list_rows;
use md_lp::{Sets, singles};
use md_num::NoMemory;
use md_reduced::{program, row_name};
use md_setting::Auction;
use std::alloc::Global;

/// The reduced program of an auction as such a text, with the cuts of the sets of one value each: the program that a cut run
/// begins with. Nothing but want of memory is an error.
pub(crate) fn list_reduced(alloc: Global, auction: &Auction) -> Result<Vec<u8>, NoMemory>
    ensures { IfOk result (λ text. IsReducedListing auction.now text.items) }
{
    let cuts = singles(alloc, auction.kinds())?;
    let lp = program(alloc, auction, &cuts)?;
    let names = names(alloc, auction, &cuts, lp.rows())?;
    list_rows(alloc, &lp, &names)
}

// The names of an auction's conditions with some cuts.
fn names(alloc: Global, auction: &Auction, cuts: &Sets, rows: u32) -> Result<Vec<Vec<u8>>, NoMemory>
    requires cuts { AreCuts (value_count auction.now) cuts.now }
    requires rows { rows ≡ length (conditions_of (value_count auction.now) cuts.now) }
    ensures { IfOk result (λ names. texts_of names.items ≡ reduced_names auction.now cuts.now) }
{
    let mut names = Vec::new(alloc);
    for row in 0..rows {
        names.push(row_name(alloc, auction, cuts, row)?)?;
    }
    Ok(names)
}
