//! What is demanded of each agent.

/// What is demanded of each agent.
#[derive(Clone, Copy)]
pub(crate) enum Demand {
    /// That no report is better for it than its true type.
    Truthful,
    /// That it gets at least what it has outside.
    Willing,
}
