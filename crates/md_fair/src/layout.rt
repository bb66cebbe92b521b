//! Where the columns of the fair program stand.
ghost use Rattle.std.specs.Prelude.{◌≡◌, ◌≤◌, ◌*◌};
ghost use Rattle.md_space.specs.Profiles.{profile_count};
ghost use Rattle.md_setting.specs.Meaning.{agent_count, sizes_of};
ghost use Rattle.md_setting.specs.Rows.{column_count};
ghost use Rattle.md_setting.specs.Shaped.{IsShaped};
ghost use Rattle.md_rows.specs.Columns.{first_plus};
ghost use Rattle.md_fair.specs.FairQuestion.{fair_rows};

use md_setting::Setting;

/// The first column of payments, which is the number of chances.
pub(crate) fn first_payment(setting: &Setting) -> u32
    ensures value { result ≡ first_plus setting.now }
    ensures few { result ≤ 16384 }
    ensures shaped { IsShaped setting.now }
{
    setting.space().profiles() * setting.outcomes()
}

/// How many payments there are, where there are payments.
pub(crate) fn payment_count(setting: &Setting) -> u32
    ensures value { result ≡ agent_count setting.now * profile_count (sizes_of setting.now) }
    ensures few { result ≤ 6144 }
{
    let space = setting.space();
    u32::from(space.agents()) * space.profiles()
}

/// The column of the plus part of the level, which is the number of the setting's columns. That of the minus part is next.
pub(crate) fn level_column(setting: &Setting) -> u32
    ensures value { result ≡ column_count setting.now }
    ensures few { result ≤ 28672 }
    ensures shaped { IsShaped setting.now }
{
    if setting.payments() {
        first_payment(setting) + 2 * payment_count(setting)
    } else {
        first_payment(setting)
    }
}

/// How many rows the fair program has: those of the setting's program, and one for each agent.
pub(crate) fn row_count(setting: &Setting) -> u32
    ensures { result ≡ fair_rows setting.now }
{
    setting.rows() + u32::from(setting.space().agents())
}
