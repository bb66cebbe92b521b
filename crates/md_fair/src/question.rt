//! The question which mechanism is the fairest.
ghost use Rattle.std.specs.Prelude.{◌≡◌, MatchOption};
ghost use Rattle.md_mech.specs.Accepted.{IsAccepted};
ghost use Rattle.md_parts.specs.Fitting.{IsFraction};
ghost use Rattle.md_question.specs.Question.{IsQuestion};
ghost use Rattle.md_question_check.specs.Verdicts.{IsOtherValue};
ghost use Rattle.md_fair.specs.FairQuestion.{fair_question};
ghost use Rattle.md_fair.specs.Least.{IsLeastValueOf};

use crate::certificates::with_level;
use crate::means::{least, least_mean};
use crate::program::fair_program;
use md_cert::{Bound, Certificate};
use md_claims::{optimal_certificate, unbounded_certificate};
use md_lp::Lp;
use md_mech::Mechanism;
use md_num::{Frac, NoMemory, Nums};
use md_question::{Asks, Unmet};
use md_question_check::Checks;
use md_setting::Setting;
use std::alloc::Global;
use std::marker::Model;

/// What asks for the fairest mechanism of a setting.
#[derive(Drop)]
pub struct Fairest<'a> {
    pub setting: &'a Setting,
}

impl<'a> Model for Fairest<'a> {
    ghost use Rattle.md_setting.specs.Setting.{GeneralSetting};

    ghost Value = { GeneralSetting };

    ghost view = { λ fairest. fairest.setting.now };
}

impl<'a> Asks for Fairest<'a> {
    ghost asked = { fair_question };

    fn setting(&self) -> &Setting {
        with_laws(self.setting)
    }

    fn program(&self, alloc: Global) -> Result<Lp, NoMemory> {
        fair_program(alloc, self.setting)
    }

    fn value(&self, mechanism: &Mechanism) -> Frac {
        least_value(self.setting, mechanism)
    }
}

impl<'a> Checks for Fairest<'a> {
    fn unmet(&self, _: &Mechanism) -> Option<Unmet> {
        None
    }

    fn other_value(&self, mechanism: &Mechanism, printed: &Frac) -> Option<Frac> {
        other_least(self.setting, mechanism, printed)
    }

    fn level(&self, mechanism: &Mechanism) -> i128 {
        least_mean(self.setting, mechanism)
    }

    fn optimal(
        &self,
        alloc: Global,
        mechanism: &Mechanism,
        bound: &Bound,
    ) -> Result<Certificate, NoMemory> {
        let own = optimal_certificate(alloc, self.setting, mechanism, bound)?;
        with_level(own, least_mean(self.setting, mechanism))
    }

    fn unbounded(
        &self,
        alloc: Global,
        mechanism: &Mechanism,
        pays: &Nums,
    ) -> Result<Certificate, NoMemory> {
        let own = unbounded_certificate(alloc, self.setting, mechanism, pays)?;
        with_level(own, least_mean(self.setting, mechanism))
    }
}

// The setting.
fn with_laws(setting: &Setting) -> &Setting
    ensures about { result.now ≡ setting.now }
    ensures laws { IsQuestion (fair_question setting.now) }
{
    let _shaped = setting.space();
    setting
}

// The least that an agent gets on average.
fn least_value(setting: &Setting, mechanism: &Mechanism) -> Frac
    requires { IsAccepted setting.now mechanism.now }
    ensures value { IsLeastValueOf setting.now mechanism.now result }
    ensures fraction { IsFraction result.num result.den }
{
    least(setting, mechanism)
}

// The least that an agent gets on average, where the printed fraction is another one.
fn other_least(setting: &Setting, mechanism: &Mechanism, printed: &Frac) -> Option<Frac>
    requires { IsAccepted setting.now mechanism.now }
    ensures { MatchOption result (IsLeastValueOf setting.now mechanism.now printed.now) (IsOtherValue (fair_question setting.now) mechanism.now printed.now) }
{
    let _weight = setting.total();
    let right = least(setting, mechanism);
    if right == *printed { None } else { Some(right) }
}
