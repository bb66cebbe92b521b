//! The question which mechanism is best among those that meet conditions of the designer.
ghost use Rattle.std.specs.Prelude.{◌≡◌};
ghost use Rattle.md_question.specs.Question.{IsQuestion};
ghost use Rattle.md_require.specs.Limits.{AreConditionsFor};
ghost use Rattle.md_require.specs.Requirement.{asked_of};
ghost use Rattle.md_require.specs.RequireQuestion.{require_question};

use crate::Condition;
use crate::program::require_program;
use crate::unmet::first_unmet;
use md_cert::{Bound, Certificate};
use md_claims::{optimal_certificate, other_value, unbounded_certificate};
use md_lp::Lp;
use md_mech::{Mechanism, worth};
use md_num::{Frac, NoMemory, Nums};
use md_question::{Asks, Unmet};
use md_question_check::Checks;
use md_setting::Setting;
use std::alloc::Global;
use std::marker::Model;

/// What asks for the best mechanism of a setting among those that meet these conditions.
#[derive(Drop)]
pub struct Requiring<'a> {
    setting: &'a Setting,
    conditions: &'a [Condition],
}

impl<'a> Model for Requiring<'a> {
    ghost use Rattle.md_require.specs.Requirement.{Requirement};
    ghost use Rattle.md_require.specs.Limits.{AreConditionsFor};

    ghost Value = { Requirement };

    ghost view = { λ r. record { setting = r.setting.now; conditions = r.conditions.now } };

    ghost invariant = { λ r. AreConditionsFor r.setting.now r.conditions.now };
}

impl<'a> Requiring<'a> {
    /// A setting with conditions that fit it.
    pub fn new(setting: &'a Setting, conditions: &'a [Condition]) -> Requiring<'a>
        requires { AreConditionsFor setting.now conditions.now }
        ensures setting { result.setting ≡ setting.now }
        ensures conditions { result.conditions ≡ conditions.now }
    {
        Requiring {
            setting,
            conditions,
        }
    }
}

impl<'a> Asks for Requiring<'a> {
    ghost asked = { asked_of };

    fn setting(&self) -> &Setting {
        with_laws(self.setting, self.conditions)
    }

    fn program(&self, alloc: Global) -> Result<Lp, NoMemory> {
        require_program(alloc, self.setting, self.conditions)
    }

    fn value(&self, mechanism: &Mechanism) -> Frac {
        worth(self.setting, mechanism)
    }
}

impl<'a> Checks for Requiring<'a> {
    fn unmet(&self, mechanism: &Mechanism) -> Option<Unmet> {
        first_unmet(self.setting, self.conditions, mechanism)
    }

    fn other_value(&self, mechanism: &Mechanism, printed: &Frac) -> Option<Frac> {
        other_value(self.setting, mechanism, printed)
    }

    fn level(&self, _: &Mechanism) -> i128 {
        0
    }

    fn optimal(
        &self,
        alloc: Global,
        mechanism: &Mechanism,
        bound: &Bound,
    ) -> Result<Certificate, NoMemory> {
        optimal_certificate(alloc, self.setting, mechanism, bound)
    }

    fn unbounded(
        &self,
        alloc: Global,
        mechanism: &Mechanism,
        pays: &Nums,
    ) -> Result<Certificate, NoMemory> {
        unbounded_certificate(alloc, self.setting, mechanism, pays)
    }
}

// The setting.
fn with_laws<'a>(setting: &'a Setting, conditions: &[Condition]) -> &'a Setting
    requires { AreConditionsFor setting.now conditions.now }
    ensures about { result.now ≡ setting.now }
    ensures laws { IsQuestion (require_question setting.now conditions.now) }
{
    let _shaped = setting.space();
    setting
}
