//! Mass tables from their numbers.
ghost use Rattle.std.specs.Prelude.{◌≡◌, ◌<◌, ◌≤◌, ◌*◌, ◌+◌, ◌↔◌, pos, ◌≤ℤ◌, ◌<ℤ◌, ◌-ℤ◌, length, IsTrue, MatchOption, IfOk, IfErr};
ghost use Rattle.md_math.specs.FirstFailure.{HoldsBelow, IsFirstFailure};
ghost use Rattle.md_math.specs.Lists.{number_at};
ghost use Rattle.md_math.specs.Sums.{sum_to};
ghost use Rattle.md_setting.specs.Auction.{value_count};
ghost use Rattle.md_expost.specs.Masses.{AreMasses, rank_count};
ghost use Rattle.md_expost.specs.Refusals.{HasShape, IsMassAt, IsPresentAt, IsKeptAt, IsRefused};

use crate::net::cap;
use crate::{MassRefusal, Masses};
use md_counts::Counts;
use md_num::Nums;
use md_setting::Auction;

/// The greatest denominator.
const MAX_DEN: i128 = 4611686018427387903;

impl Masses {
    /// The mass table of an auction with this denominator and these numbers, by the rank of the list of counts and then by
    /// kind. The lists of counts are those of the auction. It takes no memory.
    pub fn new(
        auction: &Auction,
        counts: &Counts,
        den: i128,
        rows: Nums,
    ) -> Result<Masses, MassRefusal>
        requires bidders { counts.now.bidders ≡ auction.now.bidders }
        requires kinds { counts.now.kinds ≡ value_count auction.now }
        ensures made { IfOk result (λ y. y ≡ record { den = den; rows = rows }) }
        ensures masses { IfOk result (AreMasses auction.now) }
        ensures refused { IfErr result (IsRefused auction.now (record { den = den; rows = rows })) }
    {
        if !has_shape(auction, counts, &rows) {
            return Err(MassRefusal::Shape);
        }
        if !has_den(den) {
            return Err(MassRefusal::Den);
        }
        if let Some(place) = first_negative(&rows) {
            return Err(MassRefusal::Negative(place));
        }
        if let Some(place) = first_absent(auction, counts, &rows) {
            return Err(MassRefusal::Absent(place));
        }
        if let Some(rank) = first_over(auction, counts, den, &rows) {
            return Err(MassRefusal::Over(rank));
        }
        Ok(Masses { den, rows })
    }
}

fn has_shape(auction: &Auction, counts: &Counts, rows: &Nums) -> bool
    requires bidders { counts.now.bidders ≡ auction.now.bidders }
    requires kinds { counts.now.kinds ≡ value_count auction.now }
    ensures few { IsTrue result → length rows.now ≤ 240000 }
    ensures shape { IsTrue result ↔ HasShape auction.now rows.now }
{
    rows.len() == counts.len() as usize * auction.kinds() as usize
}

fn has_den(den: i128) -> bool
    ensures { IsTrue result ↔ ((pos 1 ≤ℤ den) × (den ≤ℤ pos 4611686018427387903)) }
{
    1 <= den && den <= MAX_DEN
}

fn first_negative(rows: &Nums) -> Option<u32>
    requires { length rows.now ≤ 240000 }
    ensures { MatchOption result (HoldsBelow (length rows.now) (IsMassAt rows.now)) (IsFirstFailure (length rows.now) (IsMassAt rows.now)) }
{
    for place in 0..rows.len() {
        if !is_mass(rows.get(place)) {
            return Some(place as u32);
        }
    }
    None
}

fn is_mass(number: i128) -> bool
    ensures { IsTrue result ↔ (pos 0 ≤ℤ number) }
{
    number >= 0
}

fn first_absent(auction: &Auction, counts: &Counts, rows: &Nums) -> Option<u32>
    requires bidders { counts.now.bidders ≡ auction.now.bidders }
    requires kinds { counts.now.kinds ≡ value_count auction.now }
    requires shape { HasShape auction.now rows.now }
    requires few { length rows.now ≤ 240000 }
    ensures { MatchOption result (HoldsBelow (length rows.now) (IsPresentAt auction.now rows.now)) (IsFirstFailure (length rows.now) (IsPresentAt auction.now rows.now)) }
{
    for place in 0..rows.len() {
        if !is_present(auction, counts, rows, place) {
            return Some(place as u32);
        }
    }
    None
}

// Whether a number is not positive, or its value comes at its counts.
fn is_present(auction: &Auction, counts: &Counts, rows: &Nums, place: usize) -> bool
    requires bidders { counts.now.bidders ≡ auction.now.bidders }
    requires kinds { counts.now.kinds ≡ value_count auction.now }
    requires shape { HasShape auction.now rows.now }
    requires few { length rows.now ≤ 240000 }
    requires place_in { place < length rows.now }
    ensures { IsTrue result ↔ IsPresentAt auction.now rows.now place }
{
    let kinds = auction.kinds() as usize;
    let count = counts.count((place / kinds) as u32, (place % kinds) as u32);
    count > 0 || is_none(rows.get(place))
}

fn is_none(number: i128) -> bool
    ensures { IsTrue result ↔ (number ≤ℤ pos 0) }
{
    number <= 0
}

fn first_over(auction: &Auction, counts: &Counts, den: i128, rows: &Nums) -> Option<u32>
    requires bidders { counts.now.bidders ≡ auction.now.bidders }
    requires kinds { counts.now.kinds ≡ value_count auction.now }
    requires shape { HasShape auction.now rows.now }
    requires den_small { (pos 1 ≤ℤ den) × (den ≤ℤ pos 4611686018427387903) }
    requires nonneg { HoldsBelow (length rows.now) (IsMassAt rows.now) }
    ensures { MatchOption result (HoldsBelow (rank_count auction.now) (IsKeptAt auction.now den rows.now)) (IsFirstFailure (rank_count auction.now) (IsKeptAt auction.now den rows.now)) }
{
    for rank in 0..counts.len() {
        if !is_kept(rows, auction.kinds(), rank, cap(auction, counts, den, rank)) {
            return Some(rank);
        }
    }
    None
}

// Whether the numbers of a rank add to no more than what there is to give. What is left of it never goes below 0, so no sum
// is too large.
fn is_kept(rows: &Nums, kinds: u32, rank: u32, whole: i128) -> bool
    requires few { (rank < 20000) × (kinds ≤ 12) }
    requires inside { (rank + 1) * kinds ≤ length rows.now }
    requires whole_nonneg { pos 0 ≤ℤ whole }
    requires nonneg { HoldsBelow (length rows.now) (IsMassAt rows.now) }
    ensures { IsTrue result ↔ (sum_to kinds (λ v. number_at rows.now (rank * kinds + v)) ≤ℤ whole) }
{
    let mut left = whole;
    for kind in 0..kinds {
        let mass = rows.get((rank * kinds + kind) as usize);
        if is_below(left, mass) {
            return false;
        }
        left = difference(left, mass);
    }
    true
}

fn is_below(left: i128, right: i128) -> bool
    ensures { IsTrue result ↔ (left <ℤ right) }
{
    left < right
}

fn difference(a: i128, b: i128) -> i128
    requires nonneg { pos 0 ≤ℤ b }
    requires least { b ≤ℤ a }
    ensures { result ≡ a -ℤ b }
{
    a - b
}
