//! The command `require`: the best mechanism of a setting among those that meet conditions of the designer.
ghost use Rattle.std.specs.Prelude.{◌≡◌, length, IfOk};
ghost use Rattle.md_setting.specs.ByKind.{WhereGeneral};
ghost use Rattle.md_question.specs.Certified.{IsCertifiedFinding};
ghost use Rattle.md_question.specs.Shown.{IsFindingTo};
ghost use Rattle.md_require.specs.Limits.{AreConditionsFor};
ghost use Rattle.md_require.specs.RequireQuestion.{require_question};
ghost use Rattle.md_require.specs.RequireVerdicts.{TellsRightly};
ghost use Rattle.md_require_text.specs.Told.{AreShadowsFor, shadow_count};
ghost use Rattle.md_cli_best.specs.Finding.{IsFindStatus};
ghost use Rattle.md_cli_best.specs.Requiring.{IsRequire, IsRequiring, conditions_in, with_conditions};
ghost use Rattle.md_cli_driver.specs.Reading.{is_general};
ghost use Rattle.md_cli_driver.specs.Saying.{said};

use crate::fair::status;
use crate::find::not_found;
use md_cli_driver::{Answered, Refusal, TwoFiles, general, is_general};
use md_conditions_text::read_conditions;
use md_num::{Frac, NoMemory};
use md_question::Finding;
use md_question_solve::find_question;
use md_require::{Condition, Requiring, shadows};
use md_require_text::{RequiredAnswer, write_required};
use md_setting::{Setting, SettingFile};
use md_simplex::SimplexError;
use std::alloc::Global;
use std::marker::Model;

/// Conditions that a designer adds to those of a setting, as a second file says them.
#[derive(Drop)]
pub struct Conditions {
    list: Vec<Condition>,
}

impl Model for Conditions {
    ghost use Rattle.std.specs.Prelude.{List};
    ghost use Rattle.md_require.specs.declared.condition.Condition.{Condition as Told};

    ghost Value = { List Told };

    ghost view = { λ conditions. conditions.list.items };
}

impl Conditions {
    // Those of a list.
    fn new(list: Vec<Condition>) -> Conditions
        ensures { result ≡ list.items }
    {
        Conditions { list }
    }

    // Their list.
    fn list(&self) -> &[Condition]
        ensures { result.now ≡ self.now }
    {
        &self.list
    }
}

/// `require SETTING CONDITIONS`
#[derive(Drop)]
pub struct Require;

impl TwoFiles for Require {
    type Second = Conditions;

    ghost is_served = { is_general };

    ghost reading = { λ _. conditions_in };

    ghost fits = { λ _ file conditions. WhereGeneral (λ s. AreConditionsFor s conditions) file };

    ghost says = { λ _. IsRequire };

    ghost own = { IsFindStatus };

    fn serves(&self, file: &SettingFile) -> bool {
        is_general(file)
    }

    fn second(
        &self,
        alloc: Global,
        file: &SettingFile,
        bytes: &[u8],
    ) -> Result<Conditions, Refusal> {
        let list = read_conditions(alloc, bytes, general(file))?;
        Ok(Conditions::new(list))
    }

    fn answer(
        &self,
        alloc: Global,
        file: &SettingFile,
        conditions: &Conditions,
    ) -> Result<Answered, Refusal> {
        Ok(required(alloc, general(file), conditions.list())?)
    }
}

// The best mechanism of a setting under conditions that is found, or that none was.
fn required(
    alloc: Global,
    setting: &Setting,
    conditions: &[Condition],
) -> Result<Answered, NoMemory>
    requires { AreConditionsFor setting.now conditions.now }
    ensures require { IfOk result (λ answered. IsRequiring setting.now conditions.now (said answered)) }
    ensures status { IfOk result (λ answered. IsFindStatus answered.status) }
{
    let requiring = Requiring::new(setting, conditions);
    match find_question(alloc, &requiring, None) {
        Ok(finding) => found(alloc, setting, conditions, finding),
        Err(SimplexError::TooWide { .. }) => not_found(alloc),
        Err(SimplexError::Memory) => Err(NoMemory),
    }
}

// What was found under conditions, with the shadows of a best mechanism.
fn found(
    alloc: Global,
    setting: &Setting,
    conditions: &[Condition],
    finding: Finding,
) -> Result<Answered, NoMemory>
    requires conditions { AreConditionsFor setting.now conditions.now }
    requires certified { IsCertifiedFinding (require_question setting.now conditions.now) finding }
    ensures require { IfOk result (λ answered. IsRequiring setting.now conditions.now (said answered)) }
    ensures status { IfOk result (λ answered. IsFindStatus answered.status) }
{
    let _shaped = setting.space();
    let status = status(&finding);
    let shadows = shadows_of(alloc, setting, conditions, &finding)?;
    let answer = with_conditions(alloc, conditions, finding, shadows)?;
    Ok(Answered {
        status,
        text: write_required(alloc, setting, &answer)?,
    })
}

// The shadows of the conditions, where a best mechanism was found, and else none.
fn shadows_of(
    alloc: Global,
    setting: &Setting,
    conditions: &[Condition],
    finding: &Finding,
) -> Result<Vec<Option<Frac>>, NoMemory>
    requires conditions { AreConditionsFor setting.now conditions.now }
    requires finding { IsFindingTo (require_question setting.now conditions.now) finding.now }
    ensures told { IfOk result (λ shadows. TellsRightly setting.now conditions.now finding.now shadows.items) }
    ensures fits { IfOk result (λ shadows. AreShadowsFor (shadow_count finding.now (length conditions.now)) shadows.items) }
{
    match finding {
        Finding::Optimal {
            value: _,
            mechanism: _,
            bound,
        } => shadows(alloc, setting, conditions, bound),
        _ => Ok(Vec::new(alloc)),
    }
}

// Conditions with what was found under them, and with the shadows.
fn with_conditions(
    alloc: Global,
    conditions: &[Condition],
    finding: Finding,
    shadows: Vec<Option<Frac>>,
) -> Result<RequiredAnswer, NoMemory>
    ensures { IfOk result (λ answer. answer ≡ with_conditions conditions.now finding shadows.items) }
{
    let list = conditions.to_vec(alloc)?;
    Ok(RequiredAnswer::new(list, finding, shadows))
}
