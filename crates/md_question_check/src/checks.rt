//! What asks a question whose answers are checked.
ghost use Rattle.std.specs.Prelude.{◌≡◌, IfOk, MatchOption};
ghost use Rattle.md_mech.specs.Accepted.{IsAccepted};
ghost use Rattle.md_mech.specs.Admissible.{IsAdmissible};
ghost use Rattle.md_parts.specs.Fitting.{IsFraction, IsRayFor};
ghost use Rattle.md_question.specs.Question.{optimal_certificate, unbounded_certificate};
ghost use Rattle.md_question_check.specs.Verdicts.{HasNarrowLevel, IsOtherValue};

use md_cert::{Bound, Certificate};
use md_claims::{optimal_certificate, other_value, unbounded_certificate};
use md_mech::Mechanism;
use md_num::{Frac, NoMemory, Nums};
use md_question::{Asks, Unmet};
use md_setting::Setting;
use std::alloc::Global;

/// What asks a question about a setting, with what a check of an answer needs of it.
pub trait Checks: Asks {
    /// The first condition of the question that an admissible mechanism does not meet.
    fn unmet(&self, mechanism: &Mechanism) -> Option<Unmet>
        requires accepted { IsAccepted (Self.asked self.now).setting mechanism.now }
        requires admissible { IsAdmissible (Self.asked self.now).setting mechanism.now }
        ensures { MatchOption result ((Self.asked self.now).admits mechanism.now) ((Self.asked self.now).is_unmet mechanism.now) };

    /// The value of a mechanism in least terms, where the printed one is another.
    fn other_value(&self, mechanism: &Mechanism, printed: &Frac) -> Option<Frac>
        requires accepted { IsAccepted (Self.asked self.now).setting mechanism.now }
        requires fraction { IsFraction printed.now.num printed.now.den }
        ensures { MatchOption result ((Self.asked self.now).has_value mechanism.now printed.now) (IsOtherValue (Self.asked self.now) mechanism.now printed.now) };

    /// The level of a mechanism.
    fn level(&self, mechanism: &Mechanism) -> i128
        requires { IsAccepted (Self.asked self.now).setting mechanism.now }
        ensures { result ≡ (Self.asked self.now).level mechanism.now };

    /// What a mechanism with multipliers says as a certificate of the question's program.
    fn optimal(
        &self,
        alloc: Global,
        mechanism: &Mechanism,
        bound: &Bound,
    ) -> Result<Certificate, NoMemory>
        requires accepted { IsAccepted (Self.asked self.now).setting mechanism.now }
        requires level { HasNarrowLevel (Self.asked self.now) mechanism.now }
        ensures { IfOk result (λ certificate. certificate ≡ optimal_certificate (Self.asked self.now) mechanism.now bound.now) };

    /// What a mechanism with payments that are added says as a certificate of the question's program.
    fn unbounded(
        &self,
        alloc: Global,
        mechanism: &Mechanism,
        pays: &Nums,
    ) -> Result<Certificate, NoMemory>
        requires accepted { IsAccepted (Self.asked self.now).setting mechanism.now }
        requires level { HasNarrowLevel (Self.asked self.now) mechanism.now }
        requires pays { IsRayFor (Self.asked self.now).setting pays.now }
        ensures { IfOk result (λ certificate. certificate ≡ unbounded_certificate (Self.asked self.now) mechanism.now pays.now) };
}

/// An answer to the question that a setting asks by itself.
impl Checks for Setting {
    fn unmet(&self, _: &Mechanism) -> Option<Unmet> {
        None
    }

    fn other_value(&self, mechanism: &Mechanism, printed: &Frac) -> Option<Frac> {
        other_value(self, mechanism, printed)
    }

    fn level(&self, _: &Mechanism) -> i128 {
        0
    }

    fn optimal(
        &self,
        alloc: Global,
        mechanism: &Mechanism,
        bound: &Bound,
    ) -> Result<Certificate, NoMemory> {
        optimal_certificate(alloc, self, mechanism, bound)
    }

    fn unbounded(
        &self,
        alloc: Global,
        mechanism: &Mechanism,
        pays: &Nums,
    ) -> Result<Certificate, NoMemory> {
        unbounded_certificate(alloc, self, mechanism, pays)
    }
}
