//! A combination of two rows in least terms: a divisor is tried, its quotients are written, and where one is not whole all is written anew by a smaller divisor.
ghost use Rattle.std.specs.Prelude.{◌≡◌, ◌-◌, ◌^◌, ◌<◌, ◌≤◌, pos, ◌*ℤ◌, ◌<ℤ◌, length, replicate, IfErr, IfNone, IfOk, IfSome, OnOk, unsigned_abs};
ghost use Rattle.md_math.specs.Divisors.{IsCommonDivisor};
ghost use Rattle.md_math.specs.Sizes.{AllWithin, IsWithin};
ghost use Rattle.md_dict_rows.specs.Combination.{AreLeastRows, DividesCombination, IsCombination, IsLeastDen, IsReducedTo, IsTooWideRow, combined};
ghost use Rattle.md_dict_rows.specs.Reduce.{AreDivided, IsAttempt, IsDivided, IsGreatestSize, IsObstacle, IsPrepared, IsReach, KeepsSizes};

use crate::candidates::{candidate, common_at, first_divider};
use crate::combination::{Combination, LEAST_LONG, LeastRow};
use crate::halves::write_by_halves;
use crate::reach::Reach;
use crate::short::{clear, write_shortly};
use crate::sizes::{greatest_size, write_at};
use crate::witnesses::Witnesses;
use md_dict_division::{Divider, QuickDivider, is_within};

// Why the quotients of a combination are not written: the divisor does not divide the number at a place, or a quotient is above the limit.
#[derive(Clone, Copy)]
pub enum Obstacle {
    Undivided { place: usize, number: i128 },
    TooWide,
}

// A divisor that is tried, for quotients that are found out and for those that are guessed, how large quotients may be, how large what is combined is, and a row of zeros.
#[derive(Clone, Copy)]
pub struct Attempt<'a> {
    divider: Divider,
    quick: Option<QuickDivider>,
    limit: u64,
    reach: Reach,
    zeros: &'a [i64],
}

impl<'a> Attempt<'a> {
    ghost use Rattle.md_dict_rows.specs.Reduce.{IsPrepared};

    fn new(divider: Divider, limit: u64, reach: Reach, zeros: &'a [i64]) -> Attempt<'a>
        requires limit { limit ≤ 2 ^ 62 }
        requires positive { pos 0 <ℤ divider.value }
        requires size { unsigned_abs divider.value < 2 ^ 126 }
        ensures prepared { IsPrepared result }
        ensures divider { result.divider ≡ divider }
        ensures limit { result.limit ≡ limit }
        ensures reach { result.reach ≡ reach }
        ensures zeros { result.zeros.now ≡ zeros.now }
    {
        Attempt {
            divider,
            quick: QuickDivider::new(&divider, limit),
            limit,
            reach,
            zeros,
        }
    }

    // The quotient of a number, where it is guessed right.
    fn guessed(&self, number: i128) -> Option<i64>
        requires { IsPrepared self.now }
        ensures { IfSome result (λ q. (self.now.divider.value *ℤ q ≡ number) × IsWithin self.now.limit q) }
    {
        let quick = self.quick.as_ref()?;
        quick.quotient(&quick.guess, number)
    }
}

// The quotient of the number at a place.
fn quotient_at(
    combination: &Combination,
    own: &[i64],
    taken: &[i64],
    place: usize,
    attempt: &Attempt,
) -> Result<i64, Obstacle>
    requires combination { IsCombination combination.now own.now taken.now }
    requires place { place < length own.now }
    requires attempt { IsPrepared attempt.now }
    ensures number { IfOk result (λ q. (attempt.now.divider.value *ℤ q ≡ combined combination.now own.now taken.now place) × IsWithin attempt.now.limit q) }
    ensures obstacle { IfErr result (IsObstacle combination.now own.now taken.now attempt.now.limit attempt.now.divider.value) }
{
    let number = combination.number(own, taken, place);
    if let Some(quotient) = attempt.guessed(number) {
        return Ok(quotient);
    }
    let Some(quotient) = attempt.divider.exact(number) else {
        return Err(Obstacle::Undivided { place, number });
    };
    if !is_within(quotient, u128::from(attempt.limit)) {
        return Err(Obstacle::TooWide);
    }
    Ok(quotient as i64)
}

// Writes quotients from a place on, up to the first one that is guessed wrong. The place of the pivot is taken like all others, so that some number stands there.
// It stands alone, so that the multiplier and the factor are read at each place: then a product of 128 bits is one multiplication.
#[inline(never)]
fn write_quickly(
    combination: &Combination,
    own: &[i64],
    taken: &[i64],
    from: usize,
    quick: &QuickDivider,
    fresh: &mut [i64],
) -> usize
    requires combination { IsCombination combination.now own.now taken.now }
    requires from { from ≤ length own.now }
    requires most { quick.now.guess.most ≤ 2 ^ 62 }
    requires size { IsWithin (2 ^ 63 - 1) quick.now.value }
    requires divided { AreDivided combination.now own.now taken.now quick.now.value fresh.old from }
    requires length { length fresh.old ≡ length own.now }
    ensures places { (from ≤ result) × (result ≤ length own.now) }
    ensures divided { AreDivided combination.now own.now taken.now quick.now.value fresh.new result }
    ensures sizes { KeepsSizes quick.now.guess.most fresh.old fresh.new }
{
    let guess = quick.guess;
    for place in from..own.len() {
        let number = combination.mixed(own[place], taken[place]);
        let Some(quotient) = quick.quotient(&guess, number) else {
            return place;
        };
        fresh[place] = quotient;
    }
    own.len()
}

// Writes quotients from a place on as `write_quickly` does: none, where they cannot be guessed.
fn write_guessed(
    combination: &Combination,
    own: &[i64],
    taken: &[i64],
    from: usize,
    attempt: &Attempt,
    fresh: &mut [i64],
) -> usize
    requires combination { IsCombination combination.now own.now taken.now }
    requires from { from ≤ length own.now }
    requires attempt { IsPrepared attempt.now }
    requires divided { AreDivided combination.now own.now taken.now attempt.now.divider.value fresh.old from }
    requires length { length fresh.old ≡ length own.now }
    ensures places { (from ≤ result) × (result ≤ length own.now) }
    ensures divided { AreDivided combination.now own.now taken.now attempt.now.divider.value fresh.new result }
    ensures sizes { KeepsSizes attempt.now.limit fresh.old fresh.new }
{
    match &attempt.quick {
        Some(quick) => write_quickly(combination, own, taken, from, quick, fresh),
        None => from,
    }
}

// Writes all quotients but that at the place of the pivot as `write_by_halves` or `write_shortly` does, and answers the greatest size where they are right.
fn write_at_once(
    combination: &Combination,
    own: &[i64],
    taken: &[i64],
    attempt: &Attempt,
    fresh: &mut [i64],
) -> Option<u64>
    requires combination { IsCombination combination.now own.now taken.now }
    requires attempt { IsPrepared attempt.now }
    requires reach { IsReach combination.now own.now taken.now attempt.now.limit attempt.now.reach }
    requires zeros { attempt.now.zeros.now ≡ replicate (length own.now) (pos 0) }
    requires length { length fresh.old ≡ length own.now }
    ensures divided { IfSome result (λ _. AreDivided combination.now own.now taken.now attempt.now.divider.value fresh.new (length own.now)) }
    ensures greatest { IfSome result (IsGreatestSize (length own.now) fresh.new) }
    ensures sizes { KeepsSizes attempt.now.limit fresh.old fresh.new }
{
    let quick = attempt.quick.as_ref()?;
    if attempt.reach.suits_halves(quick.value) {
        return write_by_halves(combination, own, taken, attempt.zeros, quick, fresh);
    }
    if attempt.reach.bound >= LEAST_LONG {
        return None;
    }
    if let Some(greatest) = write_shortly(combination, own, taken, quick, fresh) {
        return Some(greatest);
    }
    clear(fresh);
    None
}

// Writes all quotients but that at the place of the pivot, and answers the greatest size of what then stands there.
fn write_others(
    combination: &Combination,
    own: &[i64],
    taken: &[i64],
    attempt: &Attempt,
    fresh: &mut [i64],
) -> Result<u64, Obstacle>
    requires combination { IsCombination combination.now own.now taken.now }
    requires attempt { IsPrepared attempt.now }
    requires reach { IsReach combination.now own.now taken.now attempt.now.limit attempt.now.reach }
    requires zeros { attempt.now.zeros.now ≡ replicate (length own.now) (pos 0) }
    requires length { length fresh.old ≡ length own.now }
    requires fresh { AllWithin attempt.now.limit fresh.old }
    ensures divided { OnOk result (AreDivided combination.now own.now taken.now attempt.now.divider.value fresh.new (length own.now)) }
    ensures greatest { IfOk result (IsGreatestSize (length own.now) fresh.new) }
    ensures obstacle { IfErr result (IsObstacle combination.now own.now taken.now attempt.now.limit attempt.now.divider.value) }
    ensures sizes { KeepsSizes attempt.now.limit fresh.old fresh.new }
{
    if let Some(greatest) = write_at_once(combination, own, taken, attempt, fresh) {
        return Ok(greatest);
    }
    let mut place = 0;
    while place < own.len() {
        place = write_guessed(combination, own, taken, place, attempt, fresh);
        if place < own.len() {
            fresh[place] = quotient_at(combination, own, taken, place, attempt)?;
            place += 1;
        }
    }
    Ok(greatest_size(fresh))
}

// Writes all quotients, and answers their greatest size.
fn write(
    combination: &Combination,
    own: &[i64],
    taken: &[i64],
    attempt: &Attempt,
    fresh: &mut [i64],
) -> Result<u64, Obstacle>
    requires combination { IsCombination combination.now own.now taken.now }
    requires attempt { IsPrepared attempt.now }
    requires reach { IsReach combination.now own.now taken.now attempt.now.limit attempt.now.reach }
    requires zeros { attempt.now.zeros.now ≡ replicate (length own.now) (pos 0) }
    requires length { length fresh.old ≡ length own.now }
    requires fresh { AllWithin attempt.now.limit fresh.old }
    ensures divided { OnOk result (IsDivided combination.now own.now taken.now attempt.now.divider.value fresh.new) }
    ensures greatest { IfOk result (IsGreatestSize (length own.now) fresh.new) }
    ensures obstacle { IfErr result (IsObstacle combination.now own.now taken.now attempt.now.limit attempt.now.divider.value) }
    ensures sizes { KeepsSizes attempt.now.limit fresh.old fresh.new }
{
    let others = write_others(combination, own, taken, attempt, fresh)?;
    let quotient = quotient_at(combination, own, taken, combination.place, attempt)?;
    Ok(write_at(fresh, combination.place, quotient, others))
}

// The greatest common divisor of the denominator and of all numbers.
fn whole_divider(combination: &Combination, own: &[i64], taken: &[i64]) -> Divider
    requires combination { IsCombination combination.now own.now taken.now }
    requires rows { AreLeastRows combination.now own.now taken.now }
    ensures attempt { IsAttempt combination.now own.now taken.now result.value }
    ensures divides { DividesCombination combination.now own.now taken.now result.value }
{
    let mut divider = Divider::new(candidate(combination) as i128);
    for place in 0..own.len() {
        if divider.is_one() {
            return divider;
        }
        divider = common_at(combination, own, taken, place, &divider);
    }
    divider
}

/// The denominator of a combination in least terms, however wide the row is.
pub fn exact_den(combination: &Combination, own: &[i64], taken: &[i64]) -> i128
    requires combination { IsCombination combination.now own.now taken.now }
    requires rows { AreLeastRows combination.now own.now taken.now }
    ensures { IsLeastDen combination.now own.now taken.now result }
{
    whole_divider(combination, own, taken).quotient(combination.whole_den())
}

// The row whose numbers are all written, where its denominator is not above the limit either.
fn least_row(
    combination: &Combination,
    own: &[i64],
    taken: &[i64],
    divider: &Divider,
    limit: u64,
    size: u64,
    fresh: &[i64],
) -> Option<LeastRow>
    requires combination { IsCombination combination.now own.now taken.now }
    requires limit { limit ≤ 2 ^ 62 }
    requires attempt { IsAttempt combination.now own.now taken.now divider.now.value }
    requires divided { IsDivided combination.now own.now taken.now divider.now.value fresh.now }
    requires length { length fresh.now ≡ length own.now }
    requires fresh { AllWithin limit fresh.now }
    requires size { IsGreatestSize (length own.now) fresh.now size }
    ensures row { IfSome result (λ row. IsReducedTo combination.now own.now taken.now row fresh.now) }
    ensures within { IfSome result (λ row. IsWithin limit row.den) }
    ensures wide { IfNone result (IsTooWideRow combination.now own.now taken.now limit) }
{
    let den = divider.quotient(combination.whole_den());
    if !is_within(den, u128::from(limit)) {
        return None;
    }
    Some(LeastRow {
        den: den as i64,
        size: size as i64,
    })
}

/// Writes a combination in least terms, where its denominator and no number is then above a limit. The sizes are at least those of the two rows' numbers.
/// Where a divisor does not divide a number, all is written anew for their greatest common divisor, and the place is kept for the divisors of other rows.
pub fn reduce(
    combination: &Combination,
    own: &[i64],
    taken: &[i64],
    own_size: u64,
    taken_size: u64,
    limit: u64,
    zeros: &[i64],
    fresh: &mut [i64],
    witnesses: &mut Witnesses,
) -> Option<LeastRow>
    requires combination { IsCombination combination.now own.now taken.now }
    requires rows { AreLeastRows combination.now own.now taken.now }
    requires own_size { AllWithin own_size own.now }
    requires taken_size { AllWithin taken_size taken.now }
    requires zeros { zeros.now ≡ replicate (length own.now) (pos 0) }
    requires limit { limit ≤ 2 ^ 62 }
    requires length { length fresh.old ≡ length own.now }
    requires fresh { AllWithin limit fresh.old }
    ensures row { IfSome result (λ row. IsReducedTo combination.now own.now taken.now row fresh.new) }
    ensures within { IfSome result (λ row. IsWithin limit row.den) }
    ensures wide { IfNone result (IsTooWideRow combination.now own.now taken.now limit) }
    ensures length { length fresh.new ≡ length fresh.old }
    ensures fresh { AllWithin limit fresh.new }
{
    let reach = Reach::of(combination, own_size, taken_size, limit);
    let mut divider = first_divider(combination, own, taken, reach.bound, witnesses);
    loop {
        let attempt = Attempt::new(divider, limit, reach, zeros);
        match write(combination, own, taken, &attempt, fresh) {
            Ok(size) => return least_row(combination, own, taken, &divider, limit, size, fresh),
            Err(Obstacle::Undivided { place, number }) => {
                witnesses.add(place);
                divider = divider.common(number);
            }
            Err(Obstacle::TooWide) => return None,
        }
    }
}
