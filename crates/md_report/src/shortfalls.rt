//! By how much a mechanism misses a condition.
ghost use Rattle.std.specs.Prelude.{◌≡◌, ◌<◌, ◌^◌, pos, ◌<ℤ◌, neg_ℤ};
ghost use Rattle.md_math.specs.Sizes.{IsWithin};
ghost use Rattle.md_space.specs.Profiles.{profile_count, profile_at};
ghost use Rattle.md_setting.specs.Meaning.{agent_count, sizes_of};
ghost use Rattle.md_mech.specs.Conditions.{named, IsInside};
ghost use Rattle.md_report.specs.Amounts.{amount_of, IsAmount};
ghost use Rattle.md_report.specs.Numbers.{AreNumbers};
ghost use Rattle.md_report.specs.Ratio.{IsRatio};
ghost use Rattle.md_report.specs.Regret.{payments_at};
ghost use Rattle.md_report.specs.Shortfalls.{scale_of, IsShortfall};

use crate::amount::{Amount, Sum};
use crate::averages::expected_given;
use crate::measures::{amount, sum};
use md_mech::{Condition, Mechanism};
use md_num::Frac;
use md_setting::Setting;

/// What is missed of a condition, at its profile or given its type.
pub(crate) fn shortfall(setting: &Setting, mechanism: &Mechanism, condition: Condition) -> Frac
    requires numbers { AreNumbers setting.now mechanism.now }
    requires inside { IsInside setting.now condition }
    ensures value { IsShortfall setting.now mechanism.now (named setting.now condition) result }
    ensures scale { pos 0 <ℤ scale_of setting.now mechanism.now (named setting.now condition) }
{
    match condition {
        Condition::Dominant {
            agent,
            rank,
            report,
        } => at_profile(setting, mechanism, agent, Amount::Regret { report }, rank),
        Condition::Bayes {
            agent,
            kind,
            report,
        } => expected_given(setting, mechanism, agent, kind, Amount::Regret { report }),
        Condition::ExPost { agent, rank } => {
            at_profile(setting, mechanism, agent, Amount::Missing, rank)
        }
        Condition::Interim { agent, kind } => {
            expected_given(setting, mechanism, agent, kind, Amount::Missing)
        }
        Condition::Deficit { rank } => deficit(setting, mechanism, rank),
        // the chances of a mechanism add to the whole
        Condition::Profile { rank: _ } => nothing(setting, mechanism),
    }
}

// What is measured of an agent at a profile, over the denominator.
fn at_profile(
    setting: &Setting,
    mechanism: &Mechanism,
    agent: u8,
    measure: Amount,
    rank: u32,
) -> Frac
    requires numbers { AreNumbers setting.now mechanism.now }
    requires agent_in { agent < agent_count setting.now }
    requires measure { IsAmount setting.now agent measure }
    requires rank_in { rank < profile_count (sizes_of setting.now) }
    ensures { IsRatio (amount_of setting.now mechanism.now agent measure (profile_at (sizes_of setting.now) rank)) mechanism.now.den result }
{
    Frac::reduced(
        amount(setting, mechanism, agent, measure, rank),
        mechanism.den,
    )
}

// What is paid less than nothing at a profile.
fn deficit(setting: &Setting, mechanism: &Mechanism, rank: u32) -> Frac
    requires numbers { AreNumbers setting.now mechanism.now }
    requires rank_in { rank < profile_count (sizes_of setting.now) }
    ensures { IsRatio (neg_ℤ (payments_at setting.now mechanism.now (profile_at (sizes_of setting.now) rank))) mechanism.now.den result }
{
    let paid = sum(setting, mechanism, Sum::Payments, rank);
    Frac::reduced(opposite(paid), mechanism.den)
}

fn opposite(number: i128) -> i128
    requires { IsWithin (2 ^ 94) number }
    ensures value { result ≡ neg_ℤ number }
    ensures size { IsWithin (2 ^ 94) result }
{
    -number
}

fn nothing(setting: &Setting, mechanism: &Mechanism) -> Frac
    requires { AreNumbers setting.now mechanism.now }
    ensures { IsRatio (pos 0) mechanism.now.den result }
{
    Frac::reduced(0, mechanism.den)
}
