//! The command `iron`: an optimal mechanism of an auction in closed form.
ghost use Rattle.std.specs.Prelude.{◌≡◌, true, IfOk};
ghost use Rattle.md_cli_sell.specs.Ironing.{IsIron, IsIronStatus};
ghost use Rattle.md_cli_driver.specs.Reading.{is_auction};
ghost use Rattle.md_cli_driver.specs.Saying.{said};

use md_answer::write_answer;
use md_cli_driver::{Answered, DONE, OneFile, Refusal, UNDECIDED, is_auction};
use md_iron::{Ironed, iron};
use md_num::NoMemory;
use md_setting::SettingFile;
use std::alloc::Global;

/// `iron SETTING`
#[derive(Drop)]
pub struct Iron;

impl OneFile for Iron {
    ghost is_served = { is_auction };

    ghost says = { λ _. IsIron };

    ghost own = { IsIronStatus };

    fn serves(&self, file: &SettingFile) -> bool {
        is_auction(file)
    }

    fn answer(&self, alloc: Global, file: &SettingFile) -> Result<Answered, Refusal> {
        Ok(ironed(alloc, file)?)
    }
}

// The closed form of an auction, or that its multipliers are too long.
fn ironed(alloc: Global, file: &SettingFile) -> Result<Answered, NoMemory>
    requires { is_auction file.now ≡ true }
    ensures iron { IfOk result (λ answered. IsIron file.now (said answered)) }
    ensures status { IfOk result (λ answered. IsIronStatus answered.status) }
{
    match iron(alloc, file)? {
        Ironed::Optimal(answer) => Ok(Answered {
            status: DONE,
            text: write_answer(alloc, file, &answer)?,
        }),
        Ironed::Undecided => Ok(Answered {
            status: UNDECIDED,
            text: b"undecided\n".to_vec(alloc)?,
        }),
    }
}
