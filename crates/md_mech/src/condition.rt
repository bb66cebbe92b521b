//! The conditions of a setting, in the order of the rows of its linear program.
ghost use Rattle.std.specs.Prelude.{◌≡◌, ◌<◌, ◌+◌, length, slice_index};
ghost use Rattle.md_space.specs.Profiles.{profile_count, profile_at};
ghost use Rattle.md_setting.specs.declared.kinds.Truth.TheVariants.{Dominant, Bayes};
ghost use Rattle.md_setting.specs.declared.kinds.Rational.TheVariants.{ExPost, Interim};
ghost use Rattle.md_setting.specs.Meaning.{agent_count, sizes_of};
ghost use Rattle.md_mech.specs.Rows.{conditions_of, dominant_rows, bayes_rows, truth_rows, rational_rows, deficit_rows};
ghost use Rattle.md_mech.specs.Conditions.{IsLocated, IsAt, IsFalseReport};

use md_setting::{Rational, Setting, Truth};

/// A condition of a setting, each with a row in the setting's linear program.
#[derive(Clone, Copy)]
pub enum Condition {
    /// That a report of an agent is no better for it than its true type, where the profile of the rank has the true types.
    Dominant {
        /// The agent.
        agent: u8,
        /// The rank of the true types.
        rank: u32,
        /// The report.
        report: u8,
    },
    /// The same on average over the profiles in which the agent has a type.
    Bayes {
        /// The agent.
        agent: u8,
        /// Its true type.
        kind: u8,
        /// The report.
        report: u8,
    },
    /// That an agent gets at least what it has outside, where the profile of the rank has the true types.
    ExPost {
        /// The agent.
        agent: u8,
        /// The rank of the true types.
        rank: u32,
    },
    /// The same on average over the profiles in which the agent has a type.
    Interim {
        /// The agent.
        agent: u8,
        /// Its true type.
        kind: u8,
    },
    /// That all payments at a profile together are at least 0.
    Deficit {
        /// The rank of the profile.
        rank: u32,
    },
    /// That the chances at a profile add to the whole.
    Profile {
        /// The rank of the profile.
        rank: u32,
    },
}

/// The condition of a row of the setting's linear program. It takes no memory.
#[tactic(auto, using(crate::proofs::ConditionLaws::places))]
pub fn condition_at(setting: &Setting, row: u32) -> Condition
    requires { row < length (conditions_of setting.now) }
    ensures { IsAt setting.now (conditions_of setting.now) row result }
{
    let rest = match truth_condition(setting, row) {
        Ok(condition) => return condition,
        Err(rest) => rest,
    };
    let rest = match rational_condition(setting, rest) {
        Ok(condition) => return condition,
        Err(rest) => rest,
    };
    match deficit_condition(setting, rest) {
        Ok(condition) => condition,
        Err(rank) => Condition::Profile { rank },
    }
}

// The condition of a row on truth, or how far the row is behind all of these.
#[tactic(auto, using(crate::proofs::ConditionLaws::places))]
fn truth_condition(setting: &Setting, row: u32) -> Result<Condition, u32>
    ensures { IsLocated setting.now (truth_rows setting.now.truth setting.now) row result }
{
    match setting.truth() {
        Truth::Dominant => dominant_condition(setting, row),
        Truth::Bayes => bayes_condition(setting, row),
    }
}

#[tactic(auto, using(crate::proofs::ConditionLaws::places))]
fn dominant_condition(setting: &Setting, row: u32) -> Result<Condition, u32>
    ensures { IsLocated setting.now (truth_rows Dominant setting.now) row result }
{
    let mut rest = row;
    for agent in 0..setting.space().agents() {
        match dominant_of(setting, agent, rest) {
            Ok(condition) => return Ok(condition),
            Err(left) => rest = left,
        }
    }
    Err(rest)
}

// Of one agent: as many at each profile as it has false reports.
#[tactic(auto, using(crate::proofs::ConditionLaws::places))]
fn dominant_of(setting: &Setting, agent: u8, row: u32) -> Result<Condition, u32>
    requires { agent < agent_count setting.now }
    ensures { IsLocated setting.now (dominant_rows setting.now agent) row result }
{
    let reports = u32::from(setting.space().types(agent)) - 1;
    let rows = setting.space().profiles() * reports;
    if row >= rows {
        return Err(row - rows);
    }
    let rank = row / reports;
    let kind = setting.space().report(rank, agent);
    let report = false_report(kind, row % reports);
    Ok(Condition::Dominant {
        agent,
        rank,
        report,
    })
}

#[tactic(auto, using(crate::proofs::ConditionLaws::places))]
fn bayes_condition(setting: &Setting, row: u32) -> Result<Condition, u32>
    ensures { IsLocated setting.now (truth_rows Bayes setting.now) row result }
{
    let mut rest = row;
    for agent in 0..setting.space().agents() {
        match bayes_of(setting, agent, rest) {
            Ok(condition) => return Ok(condition),
            Err(left) => rest = left,
        }
    }
    Err(rest)
}

// Of one agent: as many for each type as it has false reports.
#[tactic(auto, using(crate::proofs::ConditionLaws::places))]
fn bayes_of(setting: &Setting, agent: u8, row: u32) -> Result<Condition, u32>
    requires { agent < agent_count setting.now }
    ensures { IsLocated setting.now (bayes_rows setting.now agent) row result }
{
    let types = u32::from(setting.space().types(agent));
    let reports = types - 1;
    let rows = types * reports;
    if row >= rows {
        return Err(row - rows);
    }
    let kind = (row / reports) as u8;
    let report = false_report(kind, row % reports);
    Ok(Condition::Bayes {
        agent,
        kind,
        report,
    })
}

// The report of a number among those other than the true type.
fn false_report(kind: u8, number: u32) -> u8
    requires { number < 16 }
    ensures { IsFalseReport kind number result }
{
    let report = number as u8;
    if report < kind { report } else { report + 1 }
}

// The condition of a row on rationality, or how far the row is behind all of these.
#[tactic(auto, using(crate::proofs::ConditionLaws::places))]
fn rational_condition(setting: &Setting, row: u32) -> Result<Condition, u32>
    ensures { IsLocated setting.now (rational_rows setting.now.rational setting.now) row result }
{
    match setting.rational() {
        Rational::None => Err(row),
        Rational::ExPost => ex_post_condition(setting, row),
        Rational::Interim => interim_condition(setting, row),
    }
}

#[tactic(auto, using(crate::proofs::ConditionLaws::places))]
fn ex_post_condition(setting: &Setting, row: u32) -> Result<Condition, u32>
    ensures { IsLocated setting.now (rational_rows ExPost setting.now) row result }
{
    let profiles = setting.space().profiles();
    let mut rest = row;
    for agent in 0..setting.space().agents() {
        if rest < profiles {
            return Ok(Condition::ExPost { agent, rank: rest });
        }
        rest -= profiles;
    }
    Err(rest)
}

#[tactic(auto, using(crate::proofs::ConditionLaws::places))]
fn interim_condition(setting: &Setting, row: u32) -> Result<Condition, u32>
    ensures { IsLocated setting.now (rational_rows Interim setting.now) row result }
{
    let mut rest = row;
    for agent in 0..setting.space().agents() {
        let types = setting.space().types(agent);
        if rest < u32::from(types) {
            let kind = rest as u8;
            return Ok(Condition::Interim { agent, kind });
        }
        rest -= u32::from(types);
    }
    Err(rest)
}

// The condition of a row on the deficit, or how far the row is behind all of these.
#[tactic(auto, using(crate::proofs::ConditionLaws::places))]
fn deficit_condition(setting: &Setting, row: u32) -> Result<Condition, u32>
    ensures { IsLocated setting.now (deficit_rows setting.now.no_deficit setting.now) row result }
{
    if setting.no_deficit() {
        let profiles = setting.space().profiles();
        if row < profiles {
            Ok(Condition::Deficit { rank: row })
        } else {
            Err(row - profiles)
        }
    } else {
        Err(row)
    }
}
