//! Which column stands for what.
ghost use Rattle.std.specs.Prelude.{◌≡◌, ◌≤◌, ◌*◌};
ghost use Rattle.md_space.specs.Profiles.{profile_count};
ghost use Rattle.md_setting.specs.Meaning.{agent_count, sizes_of};
ghost use Rattle.md_setting.specs.Rows.{column_count};
ghost use Rattle.md_setting.specs.Shaped.{IsShaped};
ghost use Rattle.md_rows.specs.Columns.{first_plus, first_minus};

use md_setting::Setting;

/// The first column of the plus parts of payments, which is the number of chances.
pub(crate) fn first_plus(setting: &Setting) -> u32
    ensures value { result ≡ first_plus setting.now }
    ensures few { result ≤ 16384 }
    ensures shaped { IsShaped setting.now }
{
    setting.space().profiles() * setting.outcomes()
}

// How many payments there are.
fn payments(setting: &Setting) -> u32
    ensures value { result ≡ agent_count setting.now * profile_count (sizes_of setting.now) }
    ensures few { result ≤ 6144 }
{
    let space = setting.space();
    u32::from(space.agents()) * space.profiles()
}

/// The first column of the minus parts of payments.
pub(crate) fn first_minus(setting: &Setting) -> u32
    ensures value { result ≡ first_minus setting.now }
    ensures few { result ≤ 22528 }
    ensures shaped { IsShaped setting.now }
{
    first_plus(setting) + payments(setting)
}

/// The number of columns.
pub(crate) fn columns(setting: &Setting) -> u32
    ensures value { result ≡ column_count setting.now }
    ensures few { result ≤ 28672 }
    ensures shaped { IsShaped setting.now }
{
    if setting.payments() {
        first_minus(setting) + payments(setting)
    } else {
        first_plus(setting)
    }
}
