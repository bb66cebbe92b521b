//! The records of mass tables, written.
ghost use Rattle.std.specs.Prelude.{◌≡◌, ◌<◌, ◌++◌, ◌∷◌, [], pos, IfOk, OnOk};
ghost use Rattle.md_math.specs.Lists.{list_to};
ghost use Rattle.md_setting.specs.Auction.{value_count};
ghost use Rattle.md_expost.specs.Masses.{rank_count, mass_at};
ghost use Rattle.md_expost.specs.Refusals.{HasShape};
ghost use Rattle.md_answer.specs.MassRecords.{count_numbers, mass_row, mass_rows};

use md_counts::Counts;
use md_expost::Masses;
use md_num::{NoMemory, Nums};
use md_parts::push_numbers;
use md_records::Row;
use md_setting::Auction;
use std::alloc::Global;

// How many bidders have each kind of value at a rank.
fn counts_at(alloc: Global, auction: &Auction, counts: &Counts, rank: u32) -> Result<Nums, NoMemory>
    requires bidders { counts.now.bidders ≡ auction.now.bidders }
    requires kinds { counts.now.kinds ≡ value_count auction.now }
    requires rank_in { rank < rank_count auction.now }
    ensures { IfOk result (λ numbers. numbers ≡ count_numbers auction.now rank) }
{
    let mut numbers = Nums::new(alloc);
    for kind in 0..auction.kinds() {
        numbers.push(i128::from(counts.count(rank, kind)))?;
    }
    Ok(numbers)
}

// Adds the masses of the kinds of values at a rank to a list.
fn add_masses(
    numbers: &mut Nums,
    auction: &Auction,
    masses: &Masses,
    rank: u32,
) -> Result<(), NoMemory>
    requires shape { HasShape auction.now masses.now.rows }
    requires rank_in { rank < rank_count auction.now }
    ensures { OnOk result (numbers.new ≡ numbers.old ++ list_to (value_count auction.now) (mass_at auction.now masses.now rank)) }
{
    let kinds = auction.kinds() as usize;
    let first = rank as usize * kinds;
    for kind in 0..kinds {
        numbers.push(masses.rows.get(first + kind))?;
    }
    Ok(())
}

// Adds the record of a rank.
fn push_rank(
    alloc: Global,
    rows: &mut Vec<Row>,
    auction: &Auction,
    counts: &Counts,
    masses: &Masses,
    rank: u32,
) -> Result<(), NoMemory>
    requires bidders { counts.now.bidders ≡ auction.now.bidders }
    requires kinds { counts.now.kinds ≡ value_count auction.now }
    requires shape { HasShape auction.now masses.now.rows }
    requires rank_in { rank < rank_count auction.now }
    ensures { OnOk result (rows.new.items ≡ rows.old.items ++ mass_row auction.now masses.now rank ∷ []) }
{
    let mut numbers = counts_at(alloc, auction, counts, rank)?;
    add_masses(&mut numbers, auction, masses, rank)?;
    push_numbers(alloc, rows, "mass", numbers.as_slice())
}

/// Adds the records of a mass table of an auction: for each list of counts, in ascending lexicographic order, the counts
/// and then the masses, both by kind. The lists of counts are those of the auction. The table has one number for each list of
/// counts and each kind; nothing else is asked of it.
///
/// # Errors
/// Want of memory.
pub fn push_masses(
    alloc: Global,
    rows: &mut Vec<Row>,
    auction: &Auction,
    counts: &Counts,
    masses: &Masses,
) -> Result<(), NoMemory>
    requires bidders { counts.now.bidders ≡ auction.now.bidders }
    requires kinds { counts.now.kinds ≡ value_count auction.now }
    requires shape { HasShape auction.now masses.now.rows }
    ensures { OnOk result (rows.new.items ≡ rows.old.items ++ mass_rows auction.now masses.now) }
{
    for rank in 0..counts.len() {
        push_rank(alloc, rows, auction, counts, masses, rank)?;
    }
    Ok(())
}
