//! Which condition of a setting a mechanism breaks first.
ghost use Rattle.std.specs.Prelude.{◌≡◌, ◌<◌, ◌↔◌, IsNone, IfSome, slice_index};
ghost use Rattle.md_space.specs.Profiles.{profile_count, profile_at};
ghost use Rattle.md_setting.specs.Meaning.{agent_count, sizes_of};
ghost use Rattle.md_mech.specs.Accepted.{IsAccepted};
ghost use Rattle.md_mech.specs.Admissible.{IsAdmissible};
ghost use Rattle.md_mech.specs.Rows.{IsFirstBroken, conditions_of, dominant_row, ex_post_row};
ghost use Rattle.md_mech.specs.Conditions.{IsInside, named};
ghost use Rattle.md_mech.specs.Tried.{IsCompared, IsTried};

use crate::averages::{average, average_outside, average_truth};
use crate::condition::{Condition, condition_at};
use crate::utilities::{outside, payments, utility};
use crate::{Broken, Mechanism};
use md_setting::Setting;

/// The first condition, in the order of the rows of the setting's linear program, that a mechanism breaks.
pub fn audit(setting: &Setting, mechanism: &Mechanism) -> Option<Broken>
    requires { IsAccepted setting.now mechanism.now }
    ensures admissible { IsNone result ↔ IsAdmissible setting.now mechanism.now }
    ensures broken { IfSome result (IsFirstBroken setting.now mechanism.now (conditions_of setting.now) 0) }
{
    for row in 0..setting.rows() {
        let condition = condition_at(setting, row);
        if let Some(broken) = broken_at(setting, mechanism, condition, row) {
            return Some(broken);
        }
    }
    None
}

// A condition with its two sides, where the mechanism breaks it. The left side is to be at least the right one.
fn broken_at(
    setting: &Setting,
    mechanism: &Mechanism,
    condition: Condition,
    row: u32,
) -> Option<Broken>
    requires accepted { IsAccepted setting.now mechanism.now }
    requires inside { IsInside setting.now condition }
    ensures { IsTried setting.now mechanism.now (named setting.now condition) row result }
{
    match condition {
        Condition::Dominant {
            agent,
            rank,
            report,
        } => broken_dominant(setting, mechanism, agent, rank, report, row),
        Condition::Bayes {
            agent,
            kind,
            report,
        } => compare(
            row,
            average_truth(setting, mechanism, agent, kind),
            average(setting, mechanism, agent, kind, report),
        ),
        Condition::ExPost { agent, rank } => broken_ex_post(setting, mechanism, agent, rank, row),
        Condition::Interim { agent, kind } => compare(
            row,
            average_truth(setting, mechanism, agent, kind),
            average_outside(setting, mechanism, agent, kind),
        ),
        Condition::Deficit { rank } => compare(row, payments(setting, mechanism, rank), 0),
        // the chances of a mechanism add to the whole
        Condition::Profile { rank: _ } => None,
    }
}

fn broken_dominant(
    setting: &Setting,
    mechanism: &Mechanism,
    agent: u8,
    rank: u32,
    report: u8,
    row: u32,
) -> Option<Broken>
    requires accepted { IsAccepted setting.now mechanism.now }
    requires agent_in { agent < agent_count setting.now }
    requires rank_in { rank < profile_count (sizes_of setting.now) }
    requires report_in { report < slice_index (sizes_of setting.now) agent }
    ensures { IsTried setting.now mechanism.now (dominant_row agent (profile_at (sizes_of setting.now) rank) report) row result }
{
    let told = setting.space().replace(rank, agent, report);
    let truth = utility(setting, mechanism, agent, rank, rank);
    compare(row, truth, utility(setting, mechanism, agent, rank, told))
}

fn broken_ex_post(
    setting: &Setting,
    mechanism: &Mechanism,
    agent: u8,
    rank: u32,
    row: u32,
) -> Option<Broken>
    requires accepted { IsAccepted setting.now mechanism.now }
    requires agent_in { agent < agent_count setting.now }
    requires rank_in { rank < profile_count (sizes_of setting.now) }
    ensures { IsTried setting.now mechanism.now (ex_post_row agent (profile_at (sizes_of setting.now) rank)) row result }
{
    let kind = setting.space().report(rank, agent);
    let inside = utility(setting, mechanism, agent, rank, rank);
    compare(row, inside, outside(setting, mechanism, agent, kind))
}

// The row of this number, where its left side is less than its right side.
fn compare(row: u32, left: i128, right: i128) -> Option<Broken>
    ensures { IsCompared row left right result }
{
    if left < right {
        return Some(Broken { row, left, right });
    }
    None
}
