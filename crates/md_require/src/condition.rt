//! Conditions that a designer adds to those of a setting.

/// What a condition measures of a mechanism.
#[derive(Clone, Copy)]
pub enum Measured {
    /// The expected payments of all agents.
    Revenue,
    /// The expected utilities of all agents, payments left out.
    Welfare,
    /// The expected utility of an agent, its payments taken off.
    Utility { agent: u8 },
    /// How often an outcome comes, over all profiles by their weights.
    Chance { outcome: u32 },
    /// How often an outcome comes at the profile of this rank.
    ChanceAt { rank: u32, outcome: u32 },
    /// What an agent pays, at each profile.
    Payment { agent: u8 },
    /// What an agent pays, at each profile at which it has this type.
    PaymentAs { agent: u8, kind: u8 },
}

/// On which side of its bound a measure is to stay.
#[derive(Clone, Copy)]
pub enum Side {
    /// It is to be at least the bound.
    Least,
    /// It is to be at most the bound.
    Most,
}

/// A condition: what it measures stays on this side of the fraction `num` over `den`.
#[derive(Clone, Copy)]
pub struct Condition {
    pub measured: Measured,
    pub side: Side,
    pub num: i128,
    pub den: i128,
}
