//! Lists of numbers for nets.
ghost use Rattle.std.specs.Prelude.{◌≡◌, ℕ, ◌^◌, ◌<◌, pos, ◌≤ℤ◌, length, IfOk};
ghost use Rattle.md_math.specs.Lists.{number_at};

use md_num::{NoMemory, Nums};
use std::alloc::Global;

/// The greatest number of a list, 2^122. Twelve of them add to three quarters of 2^126, below which the caps and the demands of a net
/// have to be.
pub(crate) const MOST: i128 = 5316911983139663491615228241121378304;

// A number, or the nearest one from 0 to the greatest.
fn bounded(value: i128) -> i128
    ensures nonneg { pos 0 ≤ℤ result }
    ensures small { result ≤ℤ pos (2 ^ 122) }
{
    if value < 0 {
        return 0;
    }
    if value > MOST {
        return MOST;
    }
    value
}

/// A list of numbers from 0 to the greatest.
pub(crate) fn numbers(alloc: Global, values: &[i128]) -> Result<Nums, NoMemory>
    ensures length { IfOk result (λ list. length list ≡ length values.now) }
    ensures nonneg { IfOk result (λ list. (k : ℕ) → k < length list → pos 0 ≤ℤ number_at list k) }
    ensures small { IfOk result (λ list. (k : ℕ) → k < length list → number_at list k ≤ℤ pos (2 ^ 122)) }
{
    let mut list = Nums::new(alloc);
    for value in values {
        list.push(bounded(*value))?;
    }
    Ok(list)
}
