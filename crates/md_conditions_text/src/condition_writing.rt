//! Writing conditions.
ghost use Rattle.std.specs.Prelude.{◌≡◌, ◌<◌, ◌++◌, ◌∷◌, [], ℕ, List, None, IfOk, OnOk};
ghost use Rattle.md_math.specs.Sizes.{IsWithin};
ghost use Rattle.md_num.specs.WholeText.{text_of};
ghost use Rattle.md_space.specs.Profiles.{profile_count};
ghost use Rattle.md_setting.specs.Meaning.{sizes_of};
ghost use Rattle.md_mech.specs.Accepted.{number_limit};
ghost use Rattle.md_parts.specs.Written.{IsWrittenBefore};
ghost use Rattle.md_require.specs.Limits.{AreConditionsFor, IsConditionFor};
ghost use Rattle.md_require.specs.Places.{IsIn};
ghost use Rattle.md_conditions_text.specs.ConditionRows.{condition_row, condition_rows, measure_texts, side_text};
ghost use Rattle.md_conditions_text.specs.ConditionsText.{conditions_read};
ghost use Rattle.md_conditions_text.specs.Kinds.{kind_ahead};
ghost use Rattle.md_conditions_text.specs.Names.{name_at};

use crate::kind::Kind;
use crate::names::profile_name;
use md_num::NoMemory;
use md_records::Row;
use md_require::{Condition, Measured, Side};
use md_setting::Setting;
use std::alloc::Global;

// The record with the names that say what is measured after its fields.
fn with_measure(
    alloc: Global,
    row: Row,
    setting: &Setting,
    measured: Measured,
) -> Result<Row, NoMemory>
    requires { IsIn setting.now measured }
    ensures { IfOk result (λ named. named ≡ row ++ measure_texts setting.now measured) }
{
    match measured {
        Measured::Revenue => Ok(row),
        Measured::Welfare => Ok(row),
        Measured::Utility { agent } => row.with(setting.agent_name(agent).as_bytes()),
        Measured::Chance { outcome } => row.with(setting.outcome_name(outcome).as_bytes()),
        Measured::ChanceAt { rank, outcome } => {
            with_profile(alloc, row, setting, rank)?.with(setting.outcome_name(outcome).as_bytes())
        }
        Measured::Payment { agent } => row.with(setting.agent_name(agent).as_bytes()),
        Measured::PaymentAs { agent, kind } => row
            .with(setting.agent_name(agent).as_bytes())?
            .with(setting.type_name(agent, kind).as_bytes()),
    }
}

// The record with the name of a profile after its fields.
fn with_profile(alloc: Global, row: Row, setting: &Setting, rank: u32) -> Result<Row, NoMemory>
    requires { rank < profile_count (sizes_of setting.now) }
    ensures { IfOk result (λ named. named ≡ row ++ name_at setting.now rank ∷ []) }
{
    let name = profile_name(alloc, setting, rank)?;
    row.with(name.as_bytes())
}

fn side_word(side: Side) -> &'static str
    ensures { result.now ≡ side_text side }
{
    match side {
        Side::Least => "least",
        Side::Most => "most",
    }
}

// The record with the side on which the measure is to stay, and the fraction, after its fields.
fn with_bound(row: Row, side: Side, num: i128, den: i128) -> Result<Row, NoMemory>
    requires num { IsWithin number_limit num }
    requires den { IsWithin number_limit den }
    ensures { IfOk result (λ filled. filled ≡ row ++ side_text side ∷ text_of num ∷ text_of den ∷ []) }
{
    let sided = row.with(side_word(side).as_bytes())?;
    let counted = sided.with_number(num)?;
    let filled = counted.with_number(den)?;
    Ok(filled)
}

// Adds the record of a condition.
fn push_condition(
    alloc: Global,
    to: &mut Vec<Row>,
    setting: &Setting,
    condition: &Condition,
) -> Result<(), NoMemory>
    requires { IsConditionFor setting.now condition.now }
    ensures { OnOk result (to.new.items ≡ to.old.items ++ condition_row setting.now condition.now ∷ []) }
{
    let Condition {
        measured,
        side,
        num,
        den,
    } = *condition;
    let worded = Row::new(alloc).with(Kind::of(measured).word().as_bytes())?;
    let named = with_measure(alloc, worded, setting, measured)?;
    to.push(with_bound(named, side, num, den)?)?;
    Ok(())
}

// Adds the record of each condition.
fn push_rows(
    alloc: Global,
    to: &mut Vec<Row>,
    setting: &Setting,
    conditions: &[Condition],
) -> Result<(), NoMemory>
    requires { AreConditionsFor setting.now conditions.now }
    ensures { OnOk result (to.new.items ≡ to.old.items ++ condition_rows setting.now conditions.now) }
{
    for condition in conditions {
        push_condition(alloc, to, setting, condition)?;
    }
    Ok(())
}

/// Adds the records of conditions.
///
/// # Errors
/// Want of memory.
pub fn push_conditions(
    alloc: Global,
    to: &mut Vec<Row>,
    setting: &Setting,
    conditions: &[Condition],
) -> Result<(), NoMemory>
    requires { AreConditionsFor setting.now conditions.now }
    ensures rows { OnOk result (to.new.items ≡ to.old.items ++ condition_rows setting.now conditions.now) }

    // They are read back as the same conditions, where no other condition follows.
    ensures reads_back { (others : List (List (List ℕ))) → kind_ahead others ≡ None → IsWrittenBefore others (conditions_read setting.now) (condition_rows setting.now conditions.now) conditions.now }
{
    let _accepted = setting.as_written();
    push_rows(alloc, to, setting, conditions)
}
