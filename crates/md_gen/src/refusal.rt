//! Refusals of generated settings, of which there are none: only memory can run out.
ghost use Rattle.std.specs.Prelude.{◌≡◌};

use md_num::NoMemory;
use md_setting::BuildRefusal;

/// That memory ran out, which is the one reason for which a generated setting may not be built.
pub(crate) fn out_of_memory(refusal: BuildRefusal) -> NoMemory
    requires { refusal ≡ BuildRefusal.Memory }
{
    match refusal {
        BuildRefusal::Memory => NoMemory,
        _ => unreachable!(),
    }
}
