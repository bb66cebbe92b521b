//! The keys of setting files.
ghost use Rattle.std.specs.Prelude.{◌≡◌};

/// A key of a setting file, with one variant for each place where a key may stand.
#[derive(Clone, Copy, Debug)]
pub enum Key {
    /// `format`
    Format,
    /// `version`
    Version,
    /// `kind`
    Kind,
    /// `truth`
    Truth,
    /// `rational`
    Rational,
    /// `payments`
    Payments,
    /// `no_deficit`
    NoDeficit,
    /// `outcomes`
    Outcomes,
    /// `objective`
    Objective,
    /// `objective.welfare`
    ObjectiveWelfare,
    /// `objective.revenue`
    ObjectiveRevenue,
    /// `objective.value`
    ObjectiveValue,
    /// `prior`
    Prior,
    /// `agent`
    Agent,
    /// `agent.name`
    AgentName,
    /// `agent.types`
    AgentTypes,
    /// `agent.weights`
    AgentWeights,
    /// `agent.outside`
    AgentOutside,
    /// `agent.utility`
    AgentUtility,
    /// `agent.utility_at`
    AgentUtilityAt,
    /// `bidders` of an auction
    Bidders,
    /// `values` of an auction
    Values,
    /// `weights` of an auction
    Weights,
    /// `revenue` of an auction, with groups of bidders or without
    Revenue,
    /// `welfare` of an auction, with groups of bidders or without
    Welfare,
    /// `keep` of an auction, with groups of bidders or without
    Keep,
    /// `slots`
    Slots,
    /// `bidder`
    Bidder,
    /// `bidder.name`
    BidderName,
    /// `bidder.count`
    BidderCount,
    /// `bidder.values`
    BidderValues,
    /// `bidder.weights`
    BidderWeights,
    /// `bidder.worth`
    BidderWorth,
}

impl Key {
    ghost use Rattle.md_toml.specs.Keys.{text_of, member_name};

    /// The key's whole name, as `agent.utility`.
    pub fn text(&self) -> &'static str
        ensures { result.now ≡ text_of self.now }
    {
        match self {
            Key::Format => "format",
            Key::Version => "version",
            Key::Kind => "kind",
            Key::Truth => "truth",
            Key::Rational => "rational",
            Key::Payments => "payments",
            Key::NoDeficit => "no_deficit",
            Key::Outcomes => "outcomes",
            Key::Objective => "objective",
            Key::ObjectiveWelfare => "objective.welfare",
            Key::ObjectiveRevenue => "objective.revenue",
            Key::ObjectiveValue => "objective.value",
            Key::Prior => "prior",
            Key::Agent => "agent",
            Key::AgentName => "agent.name",
            Key::AgentTypes => "agent.types",
            Key::AgentWeights => "agent.weights",
            Key::AgentOutside => "agent.outside",
            Key::AgentUtility => "agent.utility",
            Key::AgentUtilityAt => "agent.utility_at",
            Key::Bidders => "bidders",
            Key::Values => "values",
            Key::Weights => "weights",
            Key::Revenue => "revenue",
            Key::Welfare => "welfare",
            Key::Keep => "keep",
            Key::Slots => "slots",
            Key::Bidder => "bidder",
            Key::BidderName => "bidder.name",
            Key::BidderCount => "bidder.count",
            Key::BidderValues => "bidder.values",
            Key::BidderWeights => "bidder.weights",
            Key::BidderWorth => "bidder.worth",
        }
    }

    /// The key's name within its own table, as `utility`.
    pub(crate) fn member(&self) -> &'static str
        ensures { result.now ≡ member_name self.now }
    {
        match self {
            Key::ObjectiveWelfare => "welfare",
            Key::ObjectiveRevenue => "revenue",
            Key::ObjectiveValue => "value",
            Key::AgentName => "name",
            Key::AgentTypes => "types",
            Key::AgentWeights => "weights",
            Key::AgentOutside => "outside",
            Key::AgentUtility => "utility",
            Key::AgentUtilityAt => "utility_at",
            Key::BidderName => "name",
            Key::BidderCount => "count",
            Key::BidderValues => "values",
            Key::BidderWeights => "weights",
            Key::BidderWorth => "worth",
            other => other.text(),
        }
    }
}
