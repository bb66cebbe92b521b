//! Mechanisms from their numbers.
ghost use Rattle.std.specs.Prelude.{◌≡◌, ◌<◌, ◌≤◌, ◌*◌, ◌+◌, ◌↔◌, ◌^◌, pos, ◌≤ℤ◌, ◌<ℤ◌, ◌-ℤ◌, length, IsTrue, MatchOption, IfOk, IfErr, unsigned_abs};
ghost use Rattle.md_math.specs.FirstFailure.{HoldsBelow, IsFirstFailure};
ghost use Rattle.md_math.specs.Lists.{number_at};
ghost use Rattle.md_space.specs.Profiles.{profile_count};
ghost use Rattle.md_setting.specs.Meaning.{agent_count, outcome_count, sizes_of};
ghost use Rattle.md_mech.specs.Accepted.{IsAccepted};
ghost use Rattle.md_mech.specs.Refusals.{HasShape, HasDen, IsChanceAt, IsWholeAt, IsPayment, IsPaymentAt, IsRefused};

use crate::{MechRefusal, Mechanism};
use md_num::Nums;
use md_setting::Setting;

/// The greatest size of a number of a mechanism.
pub const MAX_NUMBER: i128 = 4611686018427387903;

impl Mechanism {
    /// The mechanism of a setting with this denominator, these chances and these payments.
    pub fn new(
        setting: &Setting,
        den: i128,
        chances: Nums,
        pays: Nums,
    ) -> Result<Mechanism, MechRefusal>
        ensures made { IfOk result (λ m. m ≡ record { den = den; chances = chances; pays = pays }) }
        ensures accepted { IfOk result (IsAccepted setting.now) }
        ensures refused { IfErr result (IsRefused setting.now (record { den = den; chances = chances; pays = pays })) }
    {
        if !has_shape(setting, &chances, &pays) {
            return Err(MechRefusal::Shape);
        }
        if !has_den(den) {
            return Err(MechRefusal::Den);
        }
        if let Some(place) = first_negative(&chances) {
            return Err(MechRefusal::Negative(place));
        }
        if let Some(rank) = first_partial(setting, den, &chances) {
            return Err(MechRefusal::Sum(rank));
        }
        if let Some(place) = first_bad_payment(setting, &pays) {
            return Err(MechRefusal::Payment(place));
        }
        Ok(Mechanism { den, chances, pays })
    }
}

fn has_shape(setting: &Setting, chances: &Nums, pays: &Nums) -> bool
    ensures few { IsTrue result → (length chances.now ≤ 16384) × (length pays.now ≤ 16384) }
    ensures shape { IsTrue result ↔ ((length chances.now ≡ profile_count (sizes_of setting.now) * outcome_count setting.now) × (length pays.now ≡ profile_count (sizes_of setting.now) * agent_count setting.now)) }
{
    let space = setting.space();
    let profiles = space.profiles() as usize;
    chances.len() == profiles * setting.outcomes() as usize
        && pays.len() == profiles * space.agents() as usize
}

fn has_den(den: i128) -> bool
    ensures { IsTrue result ↔ ((pos 1 ≤ℤ den) × (den ≤ℤ pos 4611686018427387903)) }
{
    1 <= den && den <= MAX_NUMBER
}

fn first_negative(chances: &Nums) -> Option<u32>
    requires { length chances.now ≤ 16384 }
    ensures { MatchOption result (HoldsBelow (length chances.now) (IsChanceAt chances.now)) (IsFirstFailure (length chances.now) (IsChanceAt chances.now)) }
{
    for place in 0..chances.len() {
        if !is_chance(chances.get(place)) {
            return Some(place as u32);
        }
    }
    None
}

fn is_chance(number: i128) -> bool
    ensures { IsTrue result ↔ (pos 0 ≤ℤ number) }
{
    number >= 0
}

fn first_partial(setting: &Setting, den: i128, chances: &Nums) -> Option<u32>
    requires long { length chances.now ≡ profile_count (sizes_of setting.now) * outcome_count setting.now }
    requires den_small { (pos 1 ≤ℤ den) × (den ≤ℤ pos 4611686018427387903) }
    requires nonneg { HoldsBelow (length chances.now) (IsChanceAt chances.now) }
    ensures { MatchOption result (HoldsBelow (profile_count (sizes_of setting.now)) (IsWholeAt den chances.now (outcome_count setting.now))) (IsFirstFailure (profile_count (sizes_of setting.now)) (IsWholeAt den chances.now (outcome_count setting.now))) }
{
    for rank in 0..setting.space().profiles() {
        if !is_whole(den, chances, setting.outcomes(), rank) {
            return Some(rank);
        }
    }
    None
}

// Whether the chances of a rank add to the denominator. What is left of it never goes below 0, so no sum is too large.
fn is_whole(den: i128, chances: &Nums, outcomes: u32, rank: u32) -> bool
    requires few { (rank < 1024) × (outcomes ≤ 16) }
    requires inside { (rank + 1) * outcomes ≤ length chances.now }
    requires den_small { (pos 1 ≤ℤ den) × (den ≤ℤ pos 4611686018427387903) }
    requires nonneg { HoldsBelow (length chances.now) (IsChanceAt chances.now) }
    ensures { IsTrue result ↔ IsWholeAt den chances.now outcomes rank }
{
    let mut left = den;
    for outcome in 0..outcomes {
        let chance = chances.get((rank * outcomes + outcome) as usize);
        if is_below(left, chance) {
            return false;
        }
        left = difference(left, chance);
    }
    is_zero(left)
}

fn is_below(left: i128, right: i128) -> bool
    ensures { IsTrue result ↔ (left <ℤ right) }
{
    left < right
}

fn is_zero(number: i128) -> bool
    ensures { IsTrue result ↔ (number ≡ pos 0) }
{
    number == 0
}

fn difference(a: i128, b: i128) -> i128
    requires nonneg { pos 0 ≤ℤ b }
    requires least { b ≤ℤ a }
    ensures { result ≡ a -ℤ b }
{
    a - b
}

fn first_bad_payment(setting: &Setting, pays: &Nums) -> Option<u32>
    requires { length pays.now ≤ 16384 }
    ensures { MatchOption result (HoldsBelow (length pays.now) (IsPaymentAt setting.now pays.now)) (IsFirstFailure (length pays.now) (IsPaymentAt setting.now pays.now)) }
{
    for place in 0..pays.len() {
        if !is_payment(setting, pays.get(place)) {
            return Some(place as u32);
        }
    }
    None
}

fn is_payment(setting: &Setting, pay: i128) -> bool
    ensures { IsTrue result ↔ IsPayment setting.now pay }
{
    is_small(pay) && (setting.payments() || is_zero(pay))
}

fn is_small(number: i128) -> bool
    ensures { IsTrue result ↔ (unsigned_abs number ≤ 4611686018427387903) }
{
    number.unsigned_abs() <= MAX_NUMBER as u128
}
