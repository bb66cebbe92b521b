//! What asks a question.
ghost use Rattle.std.specs.Prelude.{◌≡◌, IfOk};
ghost use Rattle.md_mech.specs.Accepted.{IsAccepted};
ghost use Rattle.md_parts.specs.Fitting.{IsFraction};
ghost use Rattle.md_question.specs.Best.{best_question};
ghost use Rattle.md_question.specs.Question.{IsProgramFor, IsQuestion, Question};

use md_lp::Lp;
use md_mech::{Mechanism, worth};
use md_num::{Frac, NoMemory};
use md_rows::rows_of;
use md_setting::Setting;
use std::alloc::Global;

/// What asks a question about a setting.
pub trait Asks {
    /// The question.
    ghost asked: { Self → Question };

    /// The setting that it is about.
    fn setting(&self) -> &Setting
        ensures about { result.now ≡ (asked self.now).setting }
        ensures laws { IsQuestion (asked self.now) };

    /// The program of the question. Nothing but want of memory is an error.
    fn program(&self, alloc: Global) -> Result<Lp, NoMemory>
        ensures { IfOk result (IsProgramFor (asked self.now)) };

    /// The value of a mechanism by the question.
    fn value(&self, mechanism: &Mechanism) -> Frac
        requires { IsAccepted (asked self.now).setting mechanism.now }
        ensures value { (asked self.now).is_value mechanism.now result }
        ensures fraction { IsFraction result.num result.den };
}

/// A setting asks which of its mechanisms is best for the designer.
impl Asks for Setting {
    ghost asked = { best_question };

    fn setting(&self) -> &Setting {
        let _shaped = self.space();
        self
    }

    fn program(&self, alloc: Global) -> Result<Lp, NoMemory> {
        rows_of(alloc, self)
    }

    fn value(&self, mechanism: &Mechanism) -> Frac {
        worth(self, mechanism)
    }
}
