//! Carrying out a command of two files, the second of which is read by the setting that the first one says.
ghost use Rattle.std.specs.Prelude.{◌≡◌, ◌≢◌, ◌⊎◌, ℕ, Bool, true, List, Option, Result, Ok, Err, IfOk, IfErr};
ghost use Rattle.std.specs.Option.{ForSome};
ghost use Rattle.md_ports.specs.Faults.{Rose};
ghost use Rattle.md_setting.specs.declared.file.SettingFile.{SettingFile};
ghost use Rattle.md_cli_driver.specs.declared.refusal.Refusal.{Refusal};
ghost use Rattle.md_cli_driver.specs.declared.refusal.Refusal.TheVariants as refusal;
ghost use Rattle.md_cli_driver.specs.Reading.{Follows, second_in, setting_in};
ghost use Rattle.md_cli_driver.specs.Refused.{status_of};
ghost use Rattle.md_cli_driver.specs.Saying.{Saying};
ghost use Rattle.md_cli_driver.specs.Works.{IsCarriedOut, IsWorkedOn, two_files};

use crate::answered::Answered;
use crate::read::read_file;
use crate::refusal::Refusal;
use crate::setting_file::read_setting_file;
use md_ports::Shelf;
use md_setting::SettingFile;
use std::alloc::Global;

// The greatest length of a second file, in bytes.
const ANSWER_LIMIT: usize = 67_108_864;

/// A command of two files.
pub trait TwoFiles {
    /// What the second file is read as.
    type Second: Drop;

    /// The settings that it serves.
    ghost is_served: { SettingFile → Bool };

    /// What the bytes of a second file say to it, by the setting.
    ghost reading: { Self → SettingFile → List ℕ → Result Self.Second Refusal };

    /// What is known of a second file that was read.
    ghost fits: { Self → SettingFile → Self.Second → Type 0 };

    /// What it says of both.
    ghost says: { Self → SettingFile → Self.Second → Saying → Type 0 };

    /// The statuses of what it says.
    ghost own: { ℕ → Type 0 };

    /// Whether it serves a setting.
    fn serves(&self, file: &SettingFile) -> bool
        ensures { result ≡ is_served file.now };

    /// What a second file says.
    fn second(
        &self,
        alloc: Global,
        file: &SettingFile,
        bytes: &[u8],
    ) -> Result<Self::Second, Refusal>
        requires { is_served file.now ≡ true }
        ensures follows { Follows (λ second. second) result (reading self.now file.now bytes.now) }
        ensures fits { IfOk result (fits self.now file.now) }
        ensures errors { IfErr result (λ e. (e ≡ refusal.Memory) ⊎ (status_of e ≡ 66)) };

    /// What it says of a setting that it serves and of what a second file says.
    fn answer(
        &self,
        alloc: Global,
        file: &SettingFile,
        second: &Self::Second,
    ) -> Result<Answered, Refusal>
        requires served { is_served file.now ≡ true }
        requires fits { fits self.now file.now second.now }
        ensures { IsWorkedOn 66 (says self.now file.now second.now) own result };
}

// What the second file says of a setting that is served.
fn second_of<F: Shelf, C: TwoFiles>(
    alloc: Global,
    command: &C,
    file: &SettingFile,
    name: &str,
    shelf: &mut F,
) -> Result<C::Second, Refusal>
    requires { C.is_served file.now ≡ true }
    ensures told { ForSome (F.content shelf.old name.now) (λ all. Follows (λ second. second) result (second_in (C.reading command.now file.now) all)) }
    ensures fits { IfOk result (C.fits command.now file.now) }
    ensures fault { result ≡ Err refusal.ReadFault → Rose (F.faults shelf.old name.now) (F.faults shelf.new name.now) }
    ensures quiet { (n : List ℕ) → result ≢ Err refusal.ReadFault → F.faults shelf.new n ≡ F.faults shelf.old n }
    ensures errors { IfErr result (λ e. (e ≡ refusal.ReadFault) ⊎ ((e ≡ refusal.Memory) ⊎ (status_of e ≡ 66))) }
{
    let bytes = read_file(shelf, name, ANSWER_LIMIT, Refusal::AnswerTooLong)?;
    command.second(alloc, file, &bytes)
}

// Goes on with a setting that was read and is served. The files are those under which it was read, and no fault came since.
fn on_served<F: Shelf, C: TwoFiles>(
    alloc: Global,
    command: &C,
    file: &SettingFile,
    name: &str,
    shelf: &mut F,
) -> Result<Answered, Refusal>
    requires { C.is_served file.now ≡ true }
    ensures { (setting : List ℕ) (content : List ℕ → Option (List ℕ)) (faults : List ℕ → ℕ) → ForSome (content setting) (λ bytes. setting_in C.is_served bytes ≡ Ok file.now) → F.content shelf.old name.now ≡ content name.now → ((n : List ℕ) → F.faults shelf.old n ≡ faults n) → IsCarriedOut (two_files C.Second C.is_served (C.reading command.now) (C.says command.now) C.own) setting name.now content faults (F.faults shelf.new) result }
{
    let second = second_of(alloc, command, file, name, shelf)?;
    command.answer(alloc, file, &second)
}

/// Reads the setting, then the second file, and carries the command out.
pub fn of_two<F: Shelf, C: TwoFiles>(
    alloc: Global,
    command: &C,
    setting: &str,
    second: &str,
    shelf: &mut F,
) -> Result<Answered, Refusal>
    ensures { IsCarriedOut (two_files C.Second C.is_served (C.reading command.now) (C.says command.now) C.own) setting.now second.now (F.content shelf.old) (F.faults shelf.old) (F.faults shelf.new) result }
{
    let file = read_setting_file(alloc, setting, shelf)?;
    if !command.serves(&file) {
        return Err(Refusal::OtherKind);
    }
    on_served(alloc, command, &file, second, shelf)
}
