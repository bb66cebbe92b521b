//! The names of profiles.
ghost use Rattle.std.specs.Prelude.{◌≡◌, ◌<◌, IfOk};
ghost use Rattle.md_space.specs.Profiles.{profile_count, profile_at};
ghost use Rattle.md_setting.specs.Meaning.{sizes_of};
ghost use Rattle.md_mech.specs.RowName.{profile_name};

use md_num::NoMemory;
use md_setting::Setting;
use std::alloc::Global;

/// The names of the types of the profile of a rank, joined by `+`.
pub(crate) fn profile_name(alloc: Global, setting: &Setting, rank: u32) -> Result<Vec<u8>, NoMemory>
    requires { rank < profile_count (sizes_of setting.now) }
    ensures { IfOk result (λ name. name.items ≡ profile_name setting.now (profile_at (sizes_of setting.now) rank)) }
{
    let space = setting.space();
    let first = setting.type_name(0, space.report(rank, 0));
    let mut name = Vec::from_slice(alloc, first.as_bytes())?;
    for agent in 1..space.agents() {
        let kind = space.report(rank, agent);
        name.push(b'+')?;
        name.extend_from_slice(setting.type_name(agent, kind).as_bytes())?;
    }
    Ok(name)
}
