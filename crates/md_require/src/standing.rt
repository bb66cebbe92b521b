//! How a mechanism stands against conditions.
ghost use Rattle.std.specs.Prelude.{◌↔◌, ◌<◌, ◌++◌, List, All, IfOk, IsTrue};
ghost use Rattle.md_space.specs.Profiles.{profile_count};
ghost use Rattle.md_setting.specs.Meaning.{sizes_of};
ghost use Rattle.md_mech.specs.Accepted.{IsAccepted};
ghost use Rattle.md_require.specs.Amounts.{Amount as Measure, amounts_of};
ghost use Rattle.md_require.specs.Conditions.{IsMet, MeetsAll};
ghost use Rattle.md_require.specs.Furthest.{IsFigureOf, IsFurther, IsFurtherOf, IsFurthest, IsFurthestIfAny};
ghost use Rattle.md_require.specs.Limits.{IsConditionFor, IsNarrowFor};
ghost use Rattle.md_require.specs.Named.{IsInside, amounts_at, named};
ghost use Rattle.md_require.specs.Standings.{AreMet, AreStandings, IsMeasure, IsStanding};

use crate::amount::{Amount, Scaled, amount_at};
use crate::bounds::whole;
use crate::told::told;
use crate::unmet::missed;
use crate::{Condition, Side};
use md_mech::Mechanism;
use md_num::{Frac, NoMemory, product};
use md_setting::Setting;
use std::alloc::Global;

/// How a mechanism stands against a condition.
#[derive(Clone, Copy)]
pub struct Standing {
    /// Whether the mechanism meets it.
    pub met: bool,
    /// What the condition measures, in least terms. Of several amounts it is the one that is furthest towards the wrong side of the
    /// bound: with `least` the least, and with `most` the greatest.
    pub amount: Frac,
}

/// An amount of a mechanism, in units of one over the mechanism's denominator times the whole of the amount, and that whole.
#[derive(Clone, Copy)]
struct Figure {
    sum: i128,
    whole: i128,
}

/// How a mechanism stands against each of some conditions, in their order. Nothing but want of memory is an error.
pub fn standings(
    alloc: Global,
    setting: &Setting,
    conditions: &[Condition],
    mechanism: &Mechanism,
) -> Result<Vec<Standing>, NoMemory>
    requires conditions { All (IsConditionFor setting.now) conditions.now }
    requires accepted { IsAccepted setting.now mechanism.now }
    ensures each { IfOk result (λ standings. AreStandings setting.now mechanism.now conditions.now standings.items) }

    // The mechanism meets all conditions exactly where it stands so against each.
    ensures meets { IfOk result (λ standings. AreMet standings.items ↔ MeetsAll setting.now conditions.now mechanism.now) }
{
    let mut standings = Vec::new(alloc);
    for condition in conditions {
        standings.push(standing_of(setting, condition, mechanism))?;
    }
    Ok(standings)
}

// How a mechanism stands against a condition.
fn standing_of(setting: &Setting, condition: &Condition, mechanism: &Mechanism) -> Standing
    requires condition { IsConditionFor setting.now condition.now }
    requires accepted { IsAccepted setting.now mechanism.now }
    ensures { IsStanding setting.now mechanism.now condition.now result }
{
    Standing {
        met: is_met(setting, condition, mechanism),
        amount: measure_of(setting, condition, mechanism),
    }
}

// Whether a mechanism meets a condition.
fn is_met(setting: &Setting, condition: &Condition, mechanism: &Mechanism) -> bool
    requires condition { IsConditionFor setting.now condition.now }
    requires accepted { IsAccepted setting.now mechanism.now }
    ensures { IsTrue result ↔ IsMet setting.now mechanism.now condition.now }
{
    missed(setting, condition, mechanism, 0).is_none()
}

// What a condition measures of a mechanism.
fn measure_of(setting: &Setting, condition: &Condition, mechanism: &Mechanism) -> Frac
    requires condition { IsConditionFor setting.now condition.now }
    requires accepted { IsAccepted setting.now mechanism.now }
    ensures { IsMeasure setting.now mechanism.now condition.now result }
{
    let figure = furthest_of(setting, condition, mechanism);
    Frac::reduced(figure.sum, product(mechanism.den, figure.whole))
}

// The furthest amount of a condition. Each has one.
fn furthest_of(setting: &Setting, condition: &Condition, mechanism: &Mechanism) -> Figure
    requires condition { IsConditionFor setting.now condition.now }
    requires accepted { IsAccepted setting.now mechanism.now }
    ensures { IsFurthest setting.now mechanism.now condition.now.side (amounts_of setting.now condition.now.measured) result }
{
    let mut found = None;
    for rank in 0..setting.space().profiles() {
        found = with_rank(setting, condition, mechanism, rank, found);
    }
    match found {
        Some(figure) => figure,
        None => unreachable!(),
    }
}

// With the amount that the condition has at a rank, if it has one there.
fn with_rank(
    setting: &Setting,
    condition: &Condition,
    mechanism: &Mechanism,
    rank: u32,
    found: Option<Figure>,
) -> Option<Figure>
    requires condition { IsConditionFor setting.now condition.now }
    requires accepted { IsAccepted setting.now mechanism.now }
    requires rank_in { rank < profile_count (sizes_of setting.now) }
    ensures { (amounts : List Measure) → IsFurthestIfAny setting.now mechanism.now condition.now.side amounts found → IsFurthestIfAny setting.now mechanism.now condition.now.side (amounts ++ amounts_at setting.now condition.now.measured rank) result }
{
    match amount_at(setting, condition.measured, rank) {
        Some(amount) => {
            let next = figure_of(setting, condition, mechanism, amount);
            Some(further(condition.side, found, next))
        }
        None => found,
    }
}

// An amount of a condition.
fn figure_of(
    setting: &Setting,
    condition: &Condition,
    mechanism: &Mechanism,
    amount: Amount,
) -> Figure
    requires condition { IsConditionFor setting.now condition.now }
    requires accepted { IsAccepted setting.now mechanism.now }
    requires inside { IsInside setting.now amount }
    requires narrow { IsNarrowFor setting.now condition.now (named setting.now amount) }
    ensures { IsFigureOf setting.now mechanism.now (named setting.now amount) result }
{
    let scaled = Scaled { amount, scale: 1 };
    Figure {
        sum: told(setting, &scaled, mechanism),
        whole: whole(setting, amount),
    }
}

// The further one of what was kept before, if anything was, and the next one.
fn further(side: Side, found: Option<Figure>, next: Figure) -> Figure
    ensures { IsFurther side found next result }
{
    match found {
        Some(kept) => further_of(side, kept, next),
        None => next,
    }
}

// The further one of two.
fn further_of(side: Side, kept: Figure, next: Figure) -> Figure
    ensures { IsFurtherOf side kept next result }
{
    match side {
        Side::Least => lesser(kept, next),
        Side::Most => greater(kept, next),
    }
}

fn lesser(kept: Figure, next: Figure) -> Figure
    ensures { IsFurtherOf Side.Least kept next result }
{
    if kept.sum <= next.sum { kept } else { next }
}

fn greater(kept: Figure, next: Figure) -> Figure
    ensures { IsFurtherOf Side.Most kept next result }
{
    if next.sum <= kept.sum { kept } else { next }
}
