//! Reading the record of a condition.
ghost use Rattle.std.specs.Prelude.{◌≡◌, ◌≢◌, ◌+◌, Ok, Err, IfOk, MatchResult};
ghost use Rattle.md_conditions_text.specs.ConditionFields.{condition_of};
ghost use Rattle.md_conditions_text.specs.Known.{IsTold};

use crate::fields_reading::{read_bounded, read_measured};
use crate::kind::Kind;
use md_parts::{AnswerRefusal, Reader};
use md_require::Condition;
use md_setting::Setting;
use std::alloc::Global;

/// The condition that a record of this kind says.
///
/// # Errors
/// No record is left, the next one is another, or has a wrong field, or that memory ran out.
pub(crate) fn read_condition(
    alloc: Global,
    reader: &mut Reader,
    setting: &Setting,
    kind: Kind,
) -> Result<Condition, AnswerRefusal>
    ensures read { MatchResult result
        (λ condition. condition_of setting.now kind reader.old ≡ Ok (condition, reader.new))
        (λ refusal. refusal ≢ AnswerRefusal.Memory → condition_of setting.now kind reader.old ≡ Err refusal) }
    ensures told { IfOk result (IsTold setting.now) }
{
    let mut fields = reader.next(kind.word(), kind.measures() + 3)?;
    let measured = read_measured(alloc, &mut fields, setting, kind)?;
    let bounded = read_bounded(&mut fields)?;
    Ok(Condition {
        measured,
        side: bounded.side,
        num: bounded.num,
        den: bounded.den,
    })
}
