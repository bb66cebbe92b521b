//! The command `determ`: the best deterministic mechanism of a setting, or why there is none.
ghost use Rattle.std.specs.Prelude.{◌≡◌, IfOk};
ghost use Rattle.md_cli_driver.specs.Reading.{is_general};
ghost use Rattle.md_cli_driver.specs.Saying.{said};
ghost use Rattle.md_cli_best.specs.Determining.{IsDeterm, IsDetermStatus, IsDetermined, status_of_determ};

use md_cli_driver::{
    Answered, DONE, INFEASIBLE, OneFile, Refusal, TOO_WIDE, UNBOUNDED, general, is_general,
};
use md_determ::solve_determ;
use md_num::{NoMemory, Width};
use md_setting::{Setting, SettingFile};
use md_tree::{DetAnswer, write_determ};
use std::alloc::Global;

/// `determ SETTING [--width W]`
#[derive(Drop)]
pub struct Determ {
    /// How many bits the numbers of a basis may have.
    pub width: Width,
}

impl OneFile for Determ {
    ghost is_served = { is_general };

    ghost says = { λ command. IsDeterm command.width };

    ghost own = { IsDetermStatus };

    fn serves(&self, file: &SettingFile) -> bool {
        is_general(file)
    }

    fn answer(&self, alloc: Global, file: &SettingFile) -> Result<Answered, Refusal> {
        Ok(determined(alloc, general(file), self.width)?)
    }
}

// The best deterministic mechanism of a setting within a width, or why there is none.
fn determined(alloc: Global, setting: &Setting, width: Width) -> Result<Answered, NoMemory>
    ensures determined { IfOk result (λ answered. IsDetermined setting.now width (said answered)) }
    ensures status { IfOk result (λ answered. IsDetermStatus answered.status) }
{
    let answer = solve_determ(alloc, setting, width)?;
    Ok(Answered {
        status: status(&answer),
        text: write_determ(alloc, setting, &answer)?,
    })
}

// The status that tells which kind of answer it is.
fn status(answer: &DetAnswer) -> u8
    ensures value { result ≡ status_of_determ answer.now }
    ensures own { IsDetermStatus result }
{
    match answer {
        DetAnswer::Optimal { .. } => DONE,
        DetAnswer::Infeasible { .. } => INFEASIBLE,
        DetAnswer::Unbounded { .. } => UNBOUNDED,
        DetAnswer::TooWide { .. } => TOO_WIDE,
    }
}
