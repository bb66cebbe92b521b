//! The sign of a number.
ghost use Rattle.std.specs.Prelude.{◌+◌, ◌<◌};
ghost use Rattle.md_dict.specs.Condensed.{entry_at};
ghost use Rattle.md_simplex.specs.Signs.{HasSign};

use md_dict::Dict;

/// The sign of a number.
#[derive(Clone, Copy)]
pub enum Sign {
    Negative,
    Zero,
    Positive,
}

/// The sign of a number.
pub fn sign_of(x: i128) -> Sign
    ensures { HasSign result x }
{
    if x < 0 {
        Sign::Negative
    } else if x == 0 {
        Sign::Zero
    } else {
        Sign::Positive
    }
}

/// The sign of an entry of a dictionary.
pub fn entry_sign(dict: &Dict, row: u32, column: u32) -> Sign
    requires row { row < dict.now.rows + 2 }
    requires column { column < dict.now.columns + dict.now.rows + 1 }
    ensures { HasSign result (entry_at dict.now row column) }
{
    sign_of(dict.entry(row, column))
}
