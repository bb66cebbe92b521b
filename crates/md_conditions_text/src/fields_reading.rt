//! Reading the fields of records of conditions.
ghost use Rattle.std.specs.Prelude.{◌≡◌, ◌≢◌, ◌<◌, ◌≤◌, ◌<ℤ◌, ◌∷◌, [], pos, length, slice_index, map, IfOk, MatchResult};
ghost use Rattle.md_math.specs.Sizes.{IsWithin};
ghost use Rattle.md_space.specs.Profiles.{profile_count};
ghost use Rattle.md_setting.specs.Meaning.{agent_count, outcome_count, sizes_of};
ghost use Rattle.md_mech.specs.Accepted.{number_limit};
ghost use Rattle.md_parts.specs.FieldsRead.{FailsIn, Reads};
ghost use Rattle.md_parts.specs.FirstRecord.{word_among};
ghost use Rattle.md_require.specs.Places.{IsIn};
ghost use Rattle.md_conditions_text.specs.Names.{type_names};
ghost use Rattle.md_conditions_text.specs.Kinds.{kind_in, measure_count, places_of};
ghost use Rattle.md_conditions_text.specs.ConditionFields.{agent_field, bound_fields, measure_fields, outcome_field, profile_field, side_at, side_place, side_words, type_field};

use crate::kind::Kind;
use crate::names::{agent_names, outcome_names, profile_names, texts_of, type_names};
use md_parts::{AnswerRefusal, Fields, Range};
use md_require::{Measured, Side};
use md_setting::Setting;
use std::alloc::Global;

/// The side on which a measure is to stay, and the fraction that bounds it.
#[derive(Clone, Copy)]
pub(crate) struct Bounded {
    pub(crate) side: Side,
    pub(crate) num: i128,
    pub(crate) den: i128,
}

// The name of an agent.
fn read_agent(alloc: Global, fields: &mut Fields, setting: &Setting) -> Result<u8, AnswerRefusal>
    requires { 0 < length fields.old.texts }
    ensures read { MatchResult result
        (λ agent. Reads (agent_field setting.now ∷ []) fields.old fields.new (pos agent ∷ []))
        (λ refusal. refusal ≢ AnswerRefusal.Memory → FailsIn (agent_field setting.now ∷ []) fields.old refusal) }
    ensures inside { IfOk result (λ agent. agent < agent_count setting.now) }
{
    let _shaped = setting.space();
    let names = agent_names(alloc, setting)?;
    let place = fields.one_of(&names)?;
    Ok(place as u8)
}

// The name of a type of an agent.
fn read_type(
    alloc: Global,
    fields: &mut Fields,
    setting: &Setting,
    agent: u8,
) -> Result<u8, AnswerRefusal>
    requires some { 0 < length fields.old.texts }
    requires agent_in { agent < agent_count setting.now }
    ensures read { MatchResult result
        (λ kind. Reads (word_among (type_names setting.now agent) ∷ []) fields.old fields.new (pos kind ∷ []))
        (λ refusal. refusal ≢ AnswerRefusal.Memory → FailsIn (word_among (type_names setting.now agent) ∷ []) fields.old refusal) }
    ensures inside { IfOk result (λ kind. kind < slice_index (sizes_of setting.now) agent) }
{
    let _shaped = setting.space();
    let names = type_names(alloc, setting, agent)?;
    let place = fields.one_of(&names)?;
    Ok(place as u8)
}

// The name of an outcome.
fn read_outcome(alloc: Global, fields: &mut Fields, setting: &Setting) -> Result<u32, AnswerRefusal>
    requires { 0 < length fields.old.texts }
    ensures read { MatchResult result
        (λ outcome. Reads (outcome_field setting.now ∷ []) fields.old fields.new (pos outcome ∷ []))
        (λ refusal. refusal ≢ AnswerRefusal.Memory → FailsIn (outcome_field setting.now ∷ []) fields.old refusal) }
    ensures inside { IfOk result (λ outcome. outcome < outcome_count setting.now) }
{
    let _shaped = setting.space();
    let names = outcome_names(alloc, setting)?;
    let place = fields.one_of(&names)?;
    Ok(place as u32)
}

// The name of a profile.
fn read_profile(alloc: Global, fields: &mut Fields, setting: &Setting) -> Result<u32, AnswerRefusal>
    requires { 0 < length fields.old.texts }
    ensures read { MatchResult result
        (λ rank. Reads (profile_field setting.now ∷ []) fields.old fields.new (pos rank ∷ []))
        (λ refusal. refusal ≢ AnswerRefusal.Memory → FailsIn (profile_field setting.now ∷ []) fields.old refusal) }
    ensures inside { IfOk result (λ rank. rank < profile_count (sizes_of setting.now)) }
{
    let _shaped = setting.space();
    let names = profile_names(alloc, setting)?;
    let texts = texts_of(alloc, &names)?;
    let place = fields.one_of(&texts)?;
    Ok(place as u32)
}

// The names of an agent and of one of its types.
fn read_agent_and_type(
    alloc: Global,
    fields: &mut Fields,
    setting: &Setting,
) -> Result<Measured, AnswerRefusal>
    requires { 2 ≤ length fields.old.texts }
    ensures read { MatchResult result
        (λ measured. Reads (agent_field setting.now ∷ type_field setting.now fields.old.texts ∷ []) fields.old fields.new (places_of measured))
        (λ refusal. refusal ≢ AnswerRefusal.Memory → FailsIn (agent_field setting.now ∷ type_field setting.now fields.old.texts ∷ []) fields.old refusal) }
    ensures kind { IfOk result (λ measured. kind_in measured ≡ Kind.PaymentAs) }
    ensures inside { IfOk result (IsIn setting.now) }
{
    let agent = read_agent(alloc, fields, setting)?;
    let kind = read_type(alloc, fields, setting, agent)?;
    Ok(Measured::PaymentAs { agent, kind })
}

// The names of a profile and of an outcome.
fn read_profile_and_outcome(
    alloc: Global,
    fields: &mut Fields,
    setting: &Setting,
) -> Result<Measured, AnswerRefusal>
    requires { 2 ≤ length fields.old.texts }
    ensures read { MatchResult result
        (λ measured. Reads (profile_field setting.now ∷ outcome_field setting.now ∷ []) fields.old fields.new (places_of measured))
        (λ refusal. refusal ≢ AnswerRefusal.Memory → FailsIn (profile_field setting.now ∷ outcome_field setting.now ∷ []) fields.old refusal) }
    ensures kind { IfOk result (λ measured. kind_in measured ≡ Kind.ChanceAt) }
    ensures inside { IfOk result (IsIn setting.now) }
{
    let rank = read_profile(alloc, fields, setting)?;
    let outcome = read_outcome(alloc, fields, setting)?;
    Ok(Measured::ChanceAt { rank, outcome })
}

/// The fields that say what is measured, in a record of this kind.
///
/// # Errors
/// The first field that is no name of what must stand there, or that memory ran out.
pub(crate) fn read_measured(
    alloc: Global,
    fields: &mut Fields,
    setting: &Setting,
    kind: Kind,
) -> Result<Measured, AnswerRefusal>
    requires { measure_count kind ≤ length fields.old.texts }
    ensures read { MatchResult result
        (λ measured. Reads (measure_fields setting.now fields.old.texts kind) fields.old fields.new (places_of measured))
        (λ refusal. refusal ≢ AnswerRefusal.Memory → FailsIn (measure_fields setting.now fields.old.texts kind) fields.old refusal) }
    ensures kind { IfOk result (λ measured. kind_in measured ≡ kind) }
    ensures inside { IfOk result (IsIn setting.now) }
{
    match kind {
        Kind::Revenue => Ok(Measured::Revenue),
        Kind::Welfare => Ok(Measured::Welfare),
        Kind::Utility => {
            let agent = read_agent(alloc, fields, setting)?;
            Ok(Measured::Utility { agent })
        }
        Kind::Chance => {
            let outcome = read_outcome(alloc, fields, setting)?;
            Ok(Measured::Chance { outcome })
        }
        Kind::ChanceAt => read_profile_and_outcome(alloc, fields, setting),
        Kind::Payment => {
            let agent = read_agent(alloc, fields, setting)?;
            Ok(Measured::Payment { agent })
        }
        Kind::PaymentAs => read_agent_and_type(alloc, fields, setting),
    }
}

// The words of both sides, in their order.
fn side_words() -> [&'static str; 2]
    ensures { map (λ w. w.now) result ≡ side_words }
{
    ["least", "most"]
}

// The side whose word stands at a place.
fn side_at(place: usize) -> Side
    requires { place < 2 }
    ensures value { result ≡ side_at place }
    ensures place { side_place result ≡ place }
{
    if place == 0 { Side::Least } else { Side::Most }
}

/// The last fields of a record: the side on which the measure is to stay, and the fraction.
///
/// # Errors
/// The first of these fields that holds something else.
pub(crate) fn read_bounded(fields: &mut Fields) -> Result<Bounded, AnswerRefusal>
    requires { 3 ≤ length fields.old.texts }
    ensures read { MatchResult result
        (λ bounded. Reads bound_fields fields.old fields.new (pos (side_place bounded.side) ∷ bounded.num ∷ bounded.den ∷ []))
        (λ refusal. FailsIn bound_fields fields.old refusal) }
    ensures positive { IfOk result (λ bounded. pos 0 <ℤ bounded.den) }
    ensures num { IfOk result (λ bounded. IsWithin number_limit bounded.num) }
    ensures den { IfOk result (λ bounded. IsWithin number_limit bounded.den) }
{
    let place = fields.one_of(&side_words())?;
    let num = fields.number(62, Range::Any)?;
    let den = fields.number(62, Range::FromOne)?;
    Ok(Bounded {
        side: side_at(place),
        num,
        den,
    })
}
