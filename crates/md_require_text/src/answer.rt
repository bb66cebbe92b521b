//! What is told of the best mechanism under conditions.
ghost use Rattle.std.specs.Prelude.{◌≡◌};
ghost use Rattle.md_require_text.specs.Told.{Told};

use md_num::Frac;
use md_question::Finding;
use md_require::Condition;
use std::marker::Model;

/// Conditions, what was found of the best mechanism under them, and the shadow of each condition where it is told.
#[derive(Drop)]
pub struct RequiredAnswer {
    conditions: Vec<Condition>,
    finding: Finding,
    shadows: Vec<Option<Frac>>,
}

impl Model for RequiredAnswer {
    ghost use Rattle.md_require_text.specs.Told.{Told};

    ghost Value = { Told };

    ghost view = { λ a. record { conditions = a.conditions.items; finding = a.finding; shadows = a.shadows.items } };
}

impl RequiredAnswer {
    /// An answer of these parts.
    pub fn new(
        conditions: Vec<Condition>,
        finding: Finding,
        shadows: Vec<Option<Frac>>,
    ) -> RequiredAnswer
        ensures { result ≡ record { conditions = conditions.items; finding = finding; shadows = shadows.items } }
    {
        RequiredAnswer {
            conditions,
            finding,
            shadows,
        }
    }

    /// The conditions, in their order.
    pub fn conditions(&self) -> &[Condition]
        ensures { result.now ≡ (self.now).conditions }
    {
        &self.conditions
    }

    /// What was found.
    pub fn finding(&self) -> &Finding
        ensures { result.now ≡ (self.now).finding }
    {
        &self.finding
    }

    /// The shadow of each condition, where it is told. Of the conditions of an infeasible or unbounded answer there are none.
    pub fn shadows(&self) -> &[Option<Frac>]
        ensures { result.now ≡ (self.now).shadows }
    {
        &self.shadows
    }

    /// The conditions, and what was found.
    pub fn into_parts(self) -> (Vec<Condition>, Finding)
        ensures conditions { result.0.items ≡ self.conditions }
        ensures finding { result.1 ≡ self.finding }
    {
        let RequiredAnswer {
            conditions,
            finding,
            shadows: _,
        } = self;
        (conditions, finding)
    }
}
