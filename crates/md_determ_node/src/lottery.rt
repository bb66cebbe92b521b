//! Lotteries of mechanisms.
ghost use Rattle.std.specs.Prelude.{◌<◌, ◌↔◌, IsTrue, MatchOption};
ghost use Rattle.md_space.specs.Profiles.{profile_count, profile_at};
ghost use Rattle.md_setting.specs.Meaning.{outcome_count, sizes_of};
ghost use Rattle.md_mech.specs.Accepted.{IsAccepted};
ghost use Rattle.md_mech.specs.Mechanism.{chance_of};
ghost use Rattle.md_determ_node.specs.Deterministic.{HasNoLottery, IsAllOrNone, IsDeterministic, IsFirstLottery};

use md_mech::Mechanism;
use md_setting::Setting;

/// The least rank of a profile at which a mechanism has a lottery: the whole is not on one outcome there. None exactly where
/// the mechanism is deterministic.
pub fn first_lottery(setting: &Setting, mechanism: &Mechanism) -> Option<u32>
    requires { IsAccepted setting.now mechanism.now }
    ensures { MatchOption result (IsDeterministic setting.now mechanism.now) (IsFirstLottery setting.now mechanism.now) }
{
    for rank in 0..setting.space().profiles() {
        if !has_no_lottery(setting, mechanism, rank) {
            return Some(rank);
        }
    }
    None
}

// Whether each outcome has no chance or the whole at the profile of a rank.
fn has_no_lottery(setting: &Setting, mechanism: &Mechanism, rank: u32) -> bool
    requires accepted { IsAccepted setting.now mechanism.now }
    requires rank_in { rank < profile_count (sizes_of setting.now) }
    ensures { IsTrue result ↔ HasNoLottery setting.now mechanism.now (profile_at (sizes_of setting.now) rank) }
{
    for outcome in 0..setting.outcomes() {
        if !is_sure(setting, mechanism, rank, outcome) {
            return false;
        }
    }
    true
}

// Whether an outcome has no chance or the whole at the profile of a rank.
fn is_sure(setting: &Setting, mechanism: &Mechanism, rank: u32, outcome: u32) -> bool
    requires accepted { IsAccepted setting.now mechanism.now }
    requires rank_in { rank < profile_count (sizes_of setting.now) }
    requires outcome_in { outcome < outcome_count setting.now }
    ensures { IsTrue result ↔ IsAllOrNone mechanism.now.den (chance_of setting.now mechanism.now (profile_at (sizes_of setting.now) rank) outcome) }
{
    let place = rank * setting.outcomes() + outcome;
    is_all_or_none(mechanism.chances.get(place as usize), mechanism.den)
}

fn is_all_or_none(chance: i128, den: i128) -> bool
    ensures { IsTrue result ↔ IsAllOrNone den chance }
{
    chance == 0 || chance == den
}
