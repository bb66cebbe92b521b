//! Carrying out a command of one file.
ghost use Rattle.std.specs.Prelude.{◌≡◌, ℕ, Bool, true, List, IsTrue};
ghost use Rattle.md_setting.specs.declared.file.SettingFile.{SettingFile};
ghost use Rattle.md_cli_driver.specs.Saying.{Saying};
ghost use Rattle.md_cli_driver.specs.Works.{IsCarriedOut, IsWorkedOn, one_file};

use crate::answered::Answered;
use crate::refusal::Refusal;
use crate::setting_file::read_setting_file;
use md_ports::Shelf;
use md_setting::SettingFile;
use std::alloc::Global;

/// A command of one file.
pub trait OneFile {
    /// The settings that it serves.
    ghost is_served: { SettingFile → Bool };

    /// What it says of each.
    ghost says: { Self → SettingFile → Saying → Type 0 };

    /// The statuses of what it says.
    ghost own: { ℕ → Type 0 };

    /// Whether it serves a setting.
    fn serves(&self, file: &SettingFile) -> bool
        ensures { result ≡ is_served file.now };

    /// What it says of a setting that it serves.
    fn answer(&self, alloc: Global, file: &SettingFile) -> Result<Answered, Refusal>
        requires { is_served file.now ≡ true }
        ensures { IsWorkedOn 65 (says self.now file.now) own result };
}

/// Reads the setting and carries the command out.
pub fn of_one<F: Shelf, C: OneFile>(
    alloc: Global,
    command: &C,
    setting: &str,
    shelf: &mut F,
) -> Result<Answered, Refusal>
    ensures { (second : List ℕ) → IsCarriedOut (one_file C.is_served (C.says command.now) C.own) setting.now second (F.content shelf.old) (F.faults shelf.old) (F.faults shelf.new) result }
{
    let file = read_setting_file(alloc, setting, shelf)?;
    if !command.serves(&file) {
        return Err(Refusal::OtherKind);
    }
    command.answer(alloc, &file)
}
