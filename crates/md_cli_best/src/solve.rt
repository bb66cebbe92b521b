//! The command `solve`: the best mechanism of a setting, or why there is none.
ghost use Rattle.std.specs.Prelude.{◌≡◌, IfOk, true};
ghost use Rattle.md_setting.specs.ByKind.{has_no_groups};
ghost use Rattle.md_cli_best.specs.Headline.{IsSolveStatus};
ghost use Rattle.md_cli_driver.specs.Saying.{said};
ghost use Rattle.md_cli_best.specs.Solving.{IsSolve, status_of_answer};

use md_answer::{Answer, write_answer};
use md_cli_driver::{
    Answered, DONE, INFEASIBLE, OneFile, Refusal, TOO_WIDE, UNBOUNDED, has_no_groups,
};
use md_num::{NoMemory, Width};
use md_setting::SettingFile;
use md_solve::solve;
use std::alloc::Global;

/// `solve SETTING [--width W]`
#[derive(Drop)]
pub struct Solve {
    /// How many bits the numbers of a basis may have.
    pub width: Width,
}

impl OneFile for Solve {
    ghost is_served = { has_no_groups };

    ghost says = { λ command. IsSolve command.width };

    ghost own = { IsSolveStatus };

    fn serves(&self, file: &SettingFile) -> bool {
        has_no_groups(file)
    }

    fn answer(&self, alloc: Global, file: &SettingFile) -> Result<Answered, Refusal> {
        Ok(solved(alloc, file, self.width)?)
    }
}

/// The answer to a setting within a width.
pub(crate) fn solved(alloc: Global, file: &SettingFile, width: Width) -> Result<Answered, NoMemory>
    requires { has_no_groups file.now ≡ true }
    ensures solving { IfOk result (λ answered. IsSolve width file.now (said answered)) }
    ensures status { IfOk result (λ answered. IsSolveStatus answered.status) }
{
    let answer = solve(alloc, file, width)?;
    Ok(Answered {
        status: status(&answer),
        text: write_answer(alloc, file, &answer)?,
    })
}

// The status that tells which kind of answer it is.
fn status(answer: &Answer) -> u8
    ensures value { result ≡ status_of_answer answer.now }
    ensures own { IsSolveStatus result }
{
    match answer {
        Answer::Table(_) => DONE,
        Answer::Optimal { .. } => DONE,
        Answer::Infeasible { .. } => INFEASIBLE,
        Answer::Unbounded { .. } => UNBOUNDED,
        Answer::AuctionOptimal { .. } => DONE,
        Answer::TooWide { .. } => TOO_WIDE,
    }
}
