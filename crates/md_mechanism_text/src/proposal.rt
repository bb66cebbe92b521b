//! A mechanism with conditions of the designer.
ghost use Rattle.std.specs.Prelude.{◌≡◌};
ghost use Rattle.md_mechanism_text.specs.Proposals.{Proposed};

use md_mech::Mechanism;
use md_require::Condition;
use std::marker::Model;

/// A mechanism, with the conditions of the designer that it is to meet beside those of its setting.
#[derive(Drop)]
pub struct Proposal {
    mechanism: Mechanism,
    conditions: Vec<Condition>,
}

impl Model for Proposal {
    ghost use Rattle.md_mechanism_text.specs.Proposals.{Proposed};

    ghost Value = { Proposed };

    ghost view = { λ p. record { mechanism = p.mechanism; conditions = p.conditions.items } };
}

impl Proposal {
    /// A mechanism that is to meet these conditions.
    pub fn new(mechanism: Mechanism, conditions: Vec<Condition>) -> Proposal
        ensures { result ≡ record { mechanism = mechanism; conditions = conditions.items } }
    {
        Proposal {
            mechanism,
            conditions,
        }
    }

    /// The mechanism.
    pub fn mechanism(&self) -> &Mechanism
        ensures { result.now ≡ (self.now).mechanism }
    {
        &self.mechanism
    }

    /// The conditions, in their order.
    pub fn conditions(&self) -> &[Condition]
        ensures { result.now ≡ (self.now).conditions }
    {
        &self.conditions
    }

    /// The mechanism by itself.
    pub fn into_mechanism(self) -> Mechanism
        ensures { result ≡ self.mechanism }
    {
        let Proposal {
            mechanism,
            conditions: _,
        } = self;
        mechanism
    }
}
