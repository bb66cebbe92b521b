//! The rows of forms.
ghost use Rattle.std.specs.Prelude.{◌≡◌, ℕ, ◌<◌, ◌^◌, [], ◌∷◌, OnErr, OnOk};
ghost use Rattle.md_math.specs.Sizes.{IsWithin};
ghost use Rattle.md_lp.specs.Program.{row_count};
ghost use Rattle.md_forms.specs.Forms.{Form};
ghost use Rattle.md_forms.specs.Terms.{AreTermsBelow};
ghost use Rattle.md_forms.specs.Built.{Extends, IsWritten};

use md_lp::{Lp, LpRefusal, RowKind, Term};
use md_num::NoMemory;

/// Appends the row of a form that these terms and this right side write down, divided by the greatest common divisor of its
/// numbers. Where memory ran out the program stays as it was.
pub fn push_form(lp: &mut Lp, kind: RowKind, terms: &[Term], right: i128) -> Result<(), NoMemory>
    requires placed { AreTermsBelow (2 ^ 44) lp.old.columns terms.now }
    requires size { IsWithin (2 ^ 44) right }
    requires room { row_count lp.old < 8192 }
    ensures ok { OnOk result ((form : Form) → IsWritten form kind terms.now right → Extends (form ∷ []) lp.old lp.new) }
    ensures err { OnErr result (lp.new ≡ lp.old) }
{
    match lp.push_row(kind, terms, right) {
        Ok(()) => Ok(()),
        Err(refusal) => Err(want_of(refusal)),
    }
}

/// Want of memory, where nothing else is refused.
pub fn want_of(refusal: LpRefusal) -> NoMemory
    requires { refusal ≡ LpRefusal.Memory }
{
    match refusal {
        LpRefusal::Memory => NoMemory,
        LpRefusal::Index | LpRefusal::Magnitude | LpRefusal::TooManyRows => unreachable!(),
    }
}
