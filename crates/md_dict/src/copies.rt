//! Numbers that a pivot copies out of rows and into them.
ghost use Rattle.std.specs.Prelude.{◌≡◌, ℕ, ◌+◌, ◌<◌, length};
ghost use Rattle.md_math.specs.Lists.{number_at};
ghost use Rattle.md_math.specs.Sizes.{AllWithin};
ghost use Rattle.md_dict.specs.Step.{IsTable, number_in};
ghost use Rattle.md_dict.specs.Fill.{Leaves};

use crate::step::Step;

// Copies the numbers of a row.
pub fn copy_row(step: &Step, row: usize, numbers: &[i64], own: &mut [i64])
    requires row { row < step.now.rows + 2 }
    requires table { IsTable step.now numbers.now }
    requires length { length own.old ≡ step.now.columns + 1 }
    ensures length { length own.new ≡ step.now.columns + 1 }
    ensures copied { (s : ℕ) → s < step.now.columns + 1 → number_at own.new s ≡ number_in step.now numbers.now row s }
    ensures size { AllWithin step.now.limit own.new }
{
    let start = row * (step.columns + 1);
    let end = start + step.columns + 1;
    own.copy_from_slice(&numbers[start..end]);
}

// Puts numbers into the place of a row.
pub fn put_row(step: &Step, row: usize, own: &[i64], numbers: &mut [i64])
    requires row { row < step.now.rows + 2 }
    requires table { IsTable step.now numbers.old }
    requires length { length own.now ≡ step.now.columns + 1 }
    requires size { AllWithin step.now.limit own.now }
    ensures put { (s : ℕ) → s < step.now.columns + 1 → number_in step.now numbers.new row s ≡ number_at own.now s }
    ensures leaves { Leaves step.now row numbers.old numbers.new }
    ensures table { IsTable step.now numbers.new }
{
    let start = row * (step.columns + 1);
    let end = start + step.columns + 1;
    numbers[start..end].copy_from_slice(own);
}

// Copies the number of each row at the place of the pivot.
pub fn copy_column(step: &Step, numbers: &[i64], factors: &mut [i64])
    requires table { IsTable step.now numbers.now }
    requires length { length factors.old ≡ step.now.rows + 2 }
    ensures length { length factors.new ≡ step.now.rows + 2 }
    ensures copied { (i : ℕ) → i < step.now.rows + 2 → number_at factors.new i ≡ number_in step.now numbers.now i step.now.place }
{
    for row in 0..factors.len() {
        factors[row] = numbers[row * (step.columns + 1) + step.place];
    }
}
