//! Carrying out a command that reads no file.
ghost use Rattle.std.specs.Prelude.{◌≡◌, ℕ, List, Option};
ghost use Rattle.md_cli_driver.specs.Refused.{refused};
ghost use Rattle.md_cli_driver.specs.Saying.{Saying};
ghost use Rattle.md_cli_driver.specs.declared.refusal.Refusal.TheVariants as refusal;
ghost use Rattle.md_cli_driver.specs.Works.{IsCarriedOut, IsWorked, no_file};

use crate::answered::Answered;
use crate::refusal::Refusal;
use std::alloc::Global;

/// A command that reads no file.
pub trait NoFile {
    /// What it says.
    ghost says: { Self → Saying → Type 0 };

    /// The statuses of what it says.
    ghost own: { ℕ → Type 0 };

    /// What it says.
    fn answer(&self, alloc: Global) -> Result<Answered, Refusal>
        ensures { IsWorked (says self.now) own result };
}

/// Carries the command out. No shelf is looked at, so that whatever one holds, none of its counts of faults changes.
pub fn of_none<C: NoFile>(alloc: Global, command: &C) -> Result<Answered, Refusal>
    ensures { (setting second : List ℕ) (content : List ℕ → Option (List ℕ)) (faults : List ℕ → ℕ) → IsCarriedOut (no_file (C.says command.now) C.own) setting second content faults faults result }
{
    command.answer(alloc)
}

/// A command with a number that it refuses. No file is looked at.
#[derive(Drop)]
pub struct NumberRefused;

impl NoFile for NumberRefused {
    ghost says = { λ _ saying. saying ≡ refused refusal.Number };

    ghost own = { λ status. status ≡ 67 };

    fn answer(&self, _alloc: Global) -> Result<Answered, Refusal> {
        Err(Refusal::Number)
    }
}
