//! The command `fair`: the fairest mechanism of a setting, or why there is none.
ghost use Rattle.std.specs.Prelude.{◌≡◌, IfOk};
ghost use Rattle.md_cli_best.specs.Fair.{IsFair, IsFairSaying, status_of_finding};
ghost use Rattle.md_cli_best.specs.Headline.{IsSolveStatus};
ghost use Rattle.md_cli_driver.specs.Reading.{is_general};
ghost use Rattle.md_cli_driver.specs.Saying.{said};

use md_cli_driver::{
    Answered, DONE, INFEASIBLE, OneFile, Refusal, TOO_WIDE, UNBOUNDED, general, is_general,
};
use md_fair::{FairAnswer, write_fair};
use md_fair_solve::solve_fair;
use md_num::{NoMemory, Width};
use md_question::Finding;
use md_setting::{Setting, SettingFile};
use md_simplex::SimplexError;
use std::alloc::Global;

/// `fair SETTING [--width W]`
#[derive(Drop)]
pub struct Fair {
    /// How many bits the numbers of a basis may have.
    pub width: Width,
}

impl OneFile for Fair {
    ghost is_served = { is_general };

    ghost says = { λ command. IsFair command.width };

    ghost own = { IsSolveStatus };

    fn serves(&self, file: &SettingFile) -> bool {
        is_general(file)
    }

    fn answer(&self, alloc: Global, file: &SettingFile) -> Result<Answered, Refusal> {
        Ok(fairest(alloc, general(file), self.width)?)
    }
}

// The fairest mechanism of a setting within a width.
fn fairest(alloc: Global, setting: &Setting, width: Width) -> Result<Answered, NoMemory>
    ensures fair { IfOk result (λ answered. IsFairSaying setting.now width (said answered)) }
    ensures status { IfOk result (λ answered. IsSolveStatus answered.status) }
{
    match solve_fair(alloc, setting, width) {
        Ok(finding) => Ok(Answered {
            status: status(&finding),
            text: write_fair(alloc, setting, &FairAnswer::Found(finding))?,
        }),
        Err(SimplexError::TooWide { first, second }) => Ok(Answered {
            status: TOO_WIDE,
            text: write_fair(alloc, setting, &FairAnswer::TooWide { first, second })?,
        }),
        Err(SimplexError::Memory) => Err(NoMemory),
    }
}

/// The status that tells which kind of answer it is.
pub(crate) fn status(finding: &Finding) -> u8
    ensures value { result ≡ status_of_finding finding.now }
    ensures own { IsSolveStatus result }
{
    match finding {
        Finding::Optimal { .. } => DONE,
        Finding::Infeasible { .. } => INFEASIBLE,
        Finding::Unbounded { .. } => UNBOUNDED,
    }
}
