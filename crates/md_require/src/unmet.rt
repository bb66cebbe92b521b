//! Which condition a mechanism does not meet.
ghost use Rattle.std.specs.Prelude.{◌<◌, ◌≤◌, ◌≤ℤ◌, All, MatchOption, length};
ghost use Rattle.md_space.specs.Profiles.{profile_count};
ghost use Rattle.md_setting.specs.Meaning.{sizes_of};
ghost use Rattle.md_mech.specs.Accepted.{IsAccepted};
ghost use Rattle.md_require.specs.Conditions.{IsFirstUnmet, IsMet, MeetsAll, Stays};
ghost use Rattle.md_require.specs.Limits.{IsConditionFor, IsNarrowFor};
ghost use Rattle.md_require.specs.Missed.{IsBelow, IsMissedAs, IsMissedAt, IsMissedBy};
ghost use Rattle.md_require.specs.Named.{IsInside, amounts_at, named};

use crate::amount::{Amount, Scaled, amount_at};
use crate::bounds::bound;
use crate::told::told;
use crate::{Condition, Side};
use md_mech::Mechanism;
use md_num::product;
use md_question::Unmet;
use md_setting::Setting;

/// The first condition that a mechanism does not meet.
pub fn first_unmet(
    setting: &Setting,
    conditions: &[Condition],
    mechanism: &Mechanism,
) -> Option<Unmet>
    requires each { All (IsConditionFor setting.now) conditions.now }
    requires few { length conditions.now ≤ 1000 }
    requires accepted { IsAccepted setting.now mechanism.now }
    ensures { MatchOption result (MeetsAll setting.now conditions.now mechanism.now) (IsFirstUnmet setting.now conditions.now mechanism.now) }
{
    for number in 0..conditions.len() {
        let condition = &conditions[number];
        if let Some(unmet) = missed(setting, condition, mechanism, number as u32) {
            return Some(unmet);
        }
    }
    None
}

/// Both sides at the first of the amounts of a condition that does not stay.
pub(crate) fn missed(
    setting: &Setting,
    condition: &Condition,
    mechanism: &Mechanism,
    number: u32,
) -> Option<Unmet>
    requires condition { IsConditionFor setting.now condition.now }
    requires accepted { IsAccepted setting.now mechanism.now }
    ensures { MatchOption result (IsMet setting.now mechanism.now condition.now) (IsMissedAs setting.now mechanism.now condition.now number) }
{
    for rank in 0..setting.space().profiles() {
        if let Some(unmet) = missed_at(setting, condition, mechanism, rank, number) {
            return Some(unmet);
        }
    }
    None
}

// Both sides at the amount that a condition has at a rank, where it has one that does not stay.
fn missed_at(
    setting: &Setting,
    condition: &Condition,
    mechanism: &Mechanism,
    rank: u32,
    number: u32,
) -> Option<Unmet>
    requires condition { IsConditionFor setting.now condition.now }
    requires accepted { IsAccepted setting.now mechanism.now }
    requires rank_in { rank < profile_count (sizes_of setting.now) }
    ensures { MatchOption result (All (Stays setting.now mechanism.now condition.now) (amounts_at setting.now condition.now.measured rank)) (IsMissedAt setting.now mechanism.now condition.now rank number) }
{
    match amount_at(setting, condition.measured, rank) {
        Some(amount) => missed_by(setting, condition, mechanism, amount, number),
        None => None,
    }
}

// Both sides at an amount of a condition, where it does not stay.
fn missed_by(
    setting: &Setting,
    condition: &Condition,
    mechanism: &Mechanism,
    amount: Amount,
    number: u32,
) -> Option<Unmet>
    requires condition { IsConditionFor setting.now condition.now }
    requires inside { IsInside setting.now amount }
    requires narrow { IsNarrowFor setting.now condition.now (named setting.now amount) }
    requires accepted { IsAccepted setting.now mechanism.now }
    ensures { MatchOption result (Stays setting.now mechanism.now condition.now (named setting.now amount)) (IsMissedBy setting.now mechanism.now condition.now number (named setting.now amount)) }
{
    let scaled = Scaled {
        amount,
        scale: condition.den,
    };
    let amount_told = told(setting, &scaled, mechanism);
    let bound_told = product(bound(setting, condition, amount), mechanism.den);
    match condition.side {
        Side::Least => below(number, amount_told, bound_told),
        Side::Most => below(number, bound_told, amount_told),
    }
}

// Both sides, where the left one is less than the right one.
fn below(condition: u32, left: i128, right: i128) -> Option<Unmet>
    ensures { MatchOption result (right ≤ℤ left) (IsBelow condition left right) }
{
    if left < right {
        Some(Unmet {
            condition,
            left,
            right,
        })
    } else {
        None
    }
}
