//! Amounts, by the numbers of what they are about.
ghost use Rattle.std.specs.Prelude.{◌≡◌, ◌<◌, IfSome, map, option_to_list};
ghost use Rattle.md_space.specs.Profiles.{profile_at, profile_count};
ghost use Rattle.md_setting.specs.Setting.{GeneralSetting};
ghost use Rattle.md_setting.specs.Meaning.{agent_count, sizes_of};
ghost use Rattle.md_require.specs.Named.{IsInside, amounts_at, at_first, named};
ghost use Rattle.md_require.specs.Places.{IsIn};
ghost use Rattle.md_require.specs.Amounts.{payment_where};

use crate::Measured;
use md_setting::Setting;

/// What is measured of a mechanism: an amount that is linear in its chances and payments.
#[derive(Clone, Copy)]
pub enum Amount {
    /// What all agents pay, over all profiles by weight.
    Revenue,
    /// What the outcome is worth to all agents, over all profiles by weight.
    Welfare,
    /// What an agent gets, its payments taken off, over all profiles by weight.
    Utility { agent: u8 },
    /// How often an outcome comes, over all profiles by weight.
    Chance { outcome: u32 },
    /// How often an outcome comes at the profile of a rank.
    ChanceAt { rank: u32, outcome: u32 },
    /// What an agent pays at the profile of a rank.
    PaymentAt { rank: u32, agent: u8 },
}

/// An amount times a number.
#[derive(Clone, Copy)]
pub(crate) struct Scaled {
    pub(crate) amount: Amount,
    pub(crate) scale: i128,
}

/// The amount that a measure has at a rank, if it has one there. Those of all ranks are all its amounts.
pub fn amount_at(setting: &Setting, measured: Measured, rank: u32) -> Option<Amount>
    requires measured_in { IsIn setting.now measured }
    requires rank_in { rank < profile_count (sizes_of setting.now) }
    ensures amounts { map (named setting.now) (option_to_list result) ≡ amounts_at setting.now measured rank }
    ensures inside { IfSome result (IsInside setting.now) }
{
    match measured {
        Measured::Revenue => at_first(rank, Amount::Revenue),
        Measured::Welfare => at_first(rank, Amount::Welfare),
        Measured::Utility { agent } => at_first(rank, Amount::Utility { agent }),
        Measured::Chance { outcome } => at_first(rank, Amount::Chance { outcome }),
        Measured::ChanceAt { rank: at, outcome } => {
            at_first(rank, Amount::ChanceAt { rank: at, outcome })
        }
        Measured::Payment { agent } => Some(Amount::PaymentAt { rank, agent }),
        Measured::PaymentAs { agent, kind } => payment_where(setting, agent, kind, rank),
    }
}

// An amount that a measure has but once.
fn at_first(rank: u32, amount: Amount) -> Option<Amount>
    ensures amount { (s : GeneralSetting) → map (named s) (option_to_list result) ≡ at_first rank (named s amount) }
    ensures inside { (s : GeneralSetting) → IsInside s amount → IfSome result (IsInside s) }
{
    if rank == 0 { Some(amount) } else { None }
}

// What an agent pays at a rank, where it has the type there.
fn payment_where(setting: &Setting, agent: u8, kind: u8, rank: u32) -> Option<Amount>
    requires agent_in { agent < agent_count setting.now }
    requires rank_in { rank < profile_count (sizes_of setting.now) }
    ensures amount { map (named setting.now) (option_to_list result) ≡ payment_where agent kind (profile_at (sizes_of setting.now) rank) }
    ensures inside { IfSome result (IsInside setting.now) }
{
    if setting.space().report(rank, agent) == kind {
        Some(Amount::PaymentAt { rank, agent })
    } else {
        None
    }
}
