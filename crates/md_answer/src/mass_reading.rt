//! The records of masses, read.
ghost use Rattle.std.specs.Prelude.{◌≡◌, ◌≢◌, ◌<◌, ◌≤◌, ◌*◌, ◌^◌, ◌++◌, ℤ, ◌*ℤ◌, ◌≤ℤ◌, List, pos, length, Ok, Err, IfOk, MatchResult};
ghost use Rattle.md_math.specs.Lists.{list_to};
ghost use Rattle.md_setting.specs.Auction.{value_count};
ghost use Rattle.md_mech.specs.Accepted.{number_limit};
ghost use Rattle.md_border.specs.Odds.{IsInterim};
ghost use Rattle.md_expost.specs.Masses.{rank_count, cap_at};
ghost use Rattle.md_parts.specs.FieldsRead.{Reads, FailsIn};
ghost use Rattle.md_answer.specs.MassRecords.{count_numbers};
ghost use Rattle.md_answer.specs.MassReading.{count_fields, most_mass, most_masses, weight_at, masses_at, masses_over};
ghost use Rattle.md_answer.specs.Supplies.{AreMassesOf, units_in};

use crate::{AnswerRefusal, Supply};
use md_border::Interim;
use md_counts::Counts;
use md_expost::Masses;
use md_num::{NoMemory, Nums};
use md_parts::{Fields, Reader};
use md_setting::Auction;
use std::alloc::Global;

/// The greatest number of 126 bits.
const MOST: u128 = 85070591730234615865843651857942052863;

// The denominator of odds, which is not negative.
fn den_of(interim: &Interim) -> u64
    requires positive { pos 1 ≤ℤ interim.now.den }
    requires size { interim.now.den ≤ℤ pos number_limit }
    ensures value { pos result ≡ interim.now.den }
    ensures size { result < 2 ^ 62 }
{
    interim.den as u64
}

// The weight of the profiles with the counts at a rank, in units of one over the denominator.
fn weight_at(auction: &Auction, counts: &Counts, den: u64, rank: u32) -> u128
    requires bidders { counts.now.bidders ≡ auction.now.bidders }
    requires kinds { counts.now.kinds ≡ value_count auction.now }
    requires rank_in { rank < rank_count auction.now }
    requires den { den < 2 ^ 62 }
    ensures value { pos result ≡ cap_at auction.now (pos den) rank }
    ensures size { result ≤ 2 ^ 62 * 10 ^ 12 }
{
    u128::from(den) * u128::from(counts.weight(rank, auction.weights()))
}

// What there is to give where profiles have this weight.
fn whole(supply: &Supply, weight: u128) -> u128
    requires { weight ≤ 2 ^ 62 * 10 ^ 12 }
    ensures value { pos result ≡ pos (units_in supply.now) *ℤ pos weight }
    ensures size { result < 2 ^ 126 }
{
    u128::from(supply.units()) * weight
}

// The greatest number that may stand for the mass of a value which so many bidders have.
fn most_mass(supply: &Supply, weight: u128, count: u32) -> u128
    requires weight { weight ≤ 2 ^ 62 * 10 ^ 12 }
    requires few { count ≤ 12 }
    ensures { result ≡ most_mass supply.now weight count }
{
    match supply {
        Supply::Item => { if count == 0 { 0 } else { MOST } }
        Supply::Units(_) => weight * u128::from(count),
    }
}

// The same for each kind of value at a rank.
fn most_masses(
    alloc: Global,
    auction: &Auction,
    supply: &Supply,
    counts: &Counts,
    den: u64,
    rank: u32,
) -> Result<Vec<u128>, NoMemory>
    requires bidders { counts.now.bidders ≡ auction.now.bidders }
    requires kinds { counts.now.kinds ≡ value_count auction.now }
    requires rank_in { rank < rank_count auction.now }
    requires den { den < 2 ^ 62 }
    ensures { IfOk result (λ mosts. mosts.items ≡ most_masses supply.now auction.now (pos den) rank) }
{
    let weight = weight_at(auction, counts, den, rank);
    let mut mosts = Vec::new(alloc);
    for kind in 0..auction.kinds() {
        mosts.push(most_mass(supply, weight, counts.count(rank, kind)))?;
    }
    Ok(mosts)
}

// The next fields must be the counts at a rank.
fn read_counts(
    fields: &mut Fields,
    auction: &Auction,
    counts: &Counts,
    rank: u32,
) -> Result<(), AnswerRefusal>
    requires bidders { counts.now.bidders ≡ auction.now.bidders }
    requires kinds { counts.now.kinds ≡ value_count auction.now }
    requires rank_in { rank < rank_count auction.now }
    requires some { value_count auction.now ≤ length fields.old.texts }
    ensures { MatchResult result
        (λ _. Reads (count_fields auction.now rank) fields.old fields.new (count_numbers auction.now rank))
        (λ refusal. FailsIn (count_fields auction.now rank) fields.old refusal) }
{
    for kind in 0..auction.kinds() {
        let count = u64::from(counts.count(rank, kind));
        fields.place(count, count + 1)?;
    }
    Ok(())
}

// The record of a rank, whose masses are added to a list.
fn read_rank(
    alloc: Global,
    reader: &mut Reader,
    auction: &Auction,
    supply: &Supply,
    counts: &Counts,
    den: u64,
    rank: u32,
    masses: &mut Nums,
) -> Result<(), AnswerRefusal>
    requires bidders { counts.now.bidders ≡ auction.now.bidders }
    requires kinds { counts.now.kinds ≡ value_count auction.now }
    requires rank_in { rank < rank_count auction.now }
    requires den { den < 2 ^ 62 }
    ensures { MatchResult result
        (λ _. (numbers : List ℤ) × (masses_at supply.now auction.now (pos den) rank reader.old ≡ Ok (numbers, reader.new)) × (masses.new ≡ masses.old ++ numbers))
        (λ refusal. refusal ≢ AnswerRefusal.Memory → masses_at supply.now auction.now (pos den) rank reader.old ≡ Err refusal) }
{
    let mosts = most_masses(alloc, auction, supply, counts, den, rank)?;
    let whole = whole(supply, weight_at(auction, counts, den, rank));
    let mut fields = reader.next("mass", 2 * auction.kinds() as usize)?;
    read_counts(&mut fields, auction, counts, rank)?;
    let sum = fields.amounts(&mosts, whole, masses)?;
    reader.adds_at_most(sum, whole)
}

/// The records of masses over the denominator of some odds.
///
/// # Errors
/// The first record that may not stand there, has a wrong field or adds to more than there is to give, or want of memory.
pub(crate) fn read_masses(
    alloc: Global,
    reader: &mut Reader,
    auction: &Auction,
    supply: &Supply,
    interim: &Interim,
) -> Result<Masses, AnswerRefusal>
    requires { IsInterim auction.now interim.now }
    ensures reads { MatchResult result
        (λ masses. masses_over supply.now auction.now interim.now.den reader.old ≡ Ok (masses, reader.new))
        (λ refusal. refusal ≢ AnswerRefusal.Memory → masses_over supply.now auction.now interim.now.den reader.old ≡ Err refusal) }
    ensures known { IfOk result (AreMassesOf supply.now auction.now) }
    ensures den { IfOk result (λ masses. masses.den ≡ interim.now.den) }
{
    let counts = Counts::of(alloc, auction)?;
    let den = den_of(interim);
    let mut rows = Nums::new(alloc);
    for rank in 0..counts.len() {
        read_rank(
            alloc, reader, auction, supply, &counts, den, rank, &mut rows,
        )?;
    }
    Ok(Masses {
        den: interim.den,
        rows,
    })
}
