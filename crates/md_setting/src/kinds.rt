//! The kinds of truth and of rationality that a setting can ask for.

/// What keeps an agent from a false report.
#[derive(Clone, Copy)]
pub enum Truth {
    /// The true report is best whatever the others report.
    Dominant,
    /// The true report is best on average over the others' true types.
    Bayes,
}

/// What an agent gets at least, compared with staying outside.
#[derive(Clone, Copy)]
pub enum Rational {
    /// No demand.
    None,
    /// The outside utility at each profile.
    ExPost,
    /// The outside utility on average, for each type of the agent.
    Interim,
}
