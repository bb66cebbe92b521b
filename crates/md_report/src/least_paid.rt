//! At which profile least is paid.
ghost use Rattle.std.specs.Prelude.{◌≡◌, ◌⊎◌, ◌<◌, ◌≤ℤ◌, ◌<ℤ◌, ◌↔◌, IsTrue};
ghost use Rattle.md_space.specs.Profiles.{profile_count, profile_at};
ghost use Rattle.md_setting.specs.Meaning.{sizes_of};
ghost use Rattle.md_report.specs.Deficits.{IsLeastPaid, IsDeficitOf};
ghost use Rattle.md_report.specs.Numbers.{AreNumbers};
ghost use Rattle.md_report.specs.Ratio.{IsRatio};
ghost use Rattle.md_report.specs.Regret.{payments_at};

use crate::amount::Sum;
use crate::deficit::Deficit;
use crate::measures::sum;
use md_mech::Mechanism;
use md_num::Frac;
use md_setting::Setting;

/// The profile at which least is paid, where the setting allows no deficit.
pub(crate) fn least_paid(setting: &Setting, mechanism: &Mechanism) -> Option<Deficit>
    requires { AreNumbers setting.now mechanism.now }
    ensures { IsDeficitOf setting.now mechanism.now result }
{
    if !setting.no_deficit() {
        return None;
    }
    let rank = least_rank(setting, mechanism);
    let payments = payments(setting, mechanism, rank);
    Some(Deficit { rank, payments })
}

// What all agents pay at the profile of a rank, over the denominator.
fn payments(setting: &Setting, mechanism: &Mechanism, rank: u32) -> Frac
    requires numbers { AreNumbers setting.now mechanism.now }
    requires rank_in { rank < profile_count (sizes_of setting.now) }
    ensures { IsRatio (payments_at setting.now mechanism.now (profile_at (sizes_of setting.now) rank)) mechanism.now.den result }
{
    Frac::reduced(sum(setting, mechanism, Sum::Payments, rank), mechanism.den)
}

// The first rank at which least is paid.
fn least_rank(setting: &Setting, mechanism: &Mechanism) -> u32
    requires { AreNumbers setting.now mechanism.now }
    ensures { IsLeastPaid setting.now mechanism.now (profile_count (sizes_of setting.now)) result }
{
    let mut least = 0;
    for rank in 1..setting.space().profiles() {
        least = lesser(setting, mechanism, least, rank);
    }
    least
}

// The one of two ranks at which less is paid, and the first where it is the same.
fn lesser(setting: &Setting, mechanism: &Mechanism, first: u32, second: u32) -> u32
    requires numbers { AreNumbers setting.now mechanism.now }
    requires first_in { first < profile_count (sizes_of setting.now) }
    requires second_in { second < profile_count (sizes_of setting.now) }
    ensures { let paid = payments_at setting.now mechanism.now in
        let sizes = sizes_of setting.now in
        ((result ≡ first) × (paid (profile_at sizes first) ≤ℤ paid (profile_at sizes second)))
        ⊎ ((result ≡ second) × (paid (profile_at sizes second) <ℤ paid (profile_at sizes first))) }
{
    let before = sum(setting, mechanism, Sum::Payments, first);
    let after = sum(setting, mechanism, Sum::Payments, second);
    if is_less(after, before) {
        second
    } else {
        first
    }
}

fn is_less(first: i128, second: i128) -> bool
    ensures { IsTrue result ↔ (first <ℤ second) }
{
    first < second
}
