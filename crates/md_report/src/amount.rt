//! What is measured of agents at a profile.

/// What is measured of an agent at a profile, in units of one over the denominator.
#[derive(Clone, Copy)]
pub(crate) enum Amount {
    /// What it gets, where all report their true types.
    Utility,
    /// What it pays.
    Payment,
    /// What it gets more by a report than by its true type.
    Regret {
        /// The report.
        report: u8,
    },
    /// What it gets less than it has outside.
    Missing,
}

/// What is measured of all agents at a profile, in the same units.
#[derive(Clone, Copy)]
pub(crate) enum Sum {
    /// What they pay.
    Payments,
    /// What they get, payments left out.
    Welfare,
}
