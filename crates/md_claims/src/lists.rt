//! Copies of lists.
ghost use Rattle.std.specs.Prelude.{◌≡◌, ◌≤◌, ◌++◌, ℕ, pos, length, drop, IfOk, OnOk};
ghost use Rattle.md_math.specs.Lists.{list_to};

use md_cert::Bound;
use md_num::{NoMemory, Nums};
use std::alloc::Global;

/// The same multipliers.
pub(crate) fn copy_bound(alloc: Global, bound: &Bound) -> Result<Bound, NoMemory>
    ensures { IfOk result (λ copy. copy ≡ bound.now) }
{
    Ok(Bound {
        den: bound.den,
        main: Nums::from_slice(alloc, bound.main.as_slice())?,
        face: Nums::from_slice(alloc, bound.face.as_slice())?,
    })
}

/// The numbers with 0 in place of the first ones.
pub(crate) fn without_first(alloc: Global, count: usize, numbers: &Nums) -> Result<Nums, NoMemory>
    requires { count ≤ length numbers.now }
    ensures { IfOk result (λ list. list ≡ list_to count (λ (_ : ℕ). pos 0) ++ drop count numbers.now) }
{
    let mut list = Nums::new(alloc);
    for _ in 0..count {
        list.push(0)?;
    }
    push_all(&numbers.as_slice()[count..], &mut list)?;
    Ok(list)
}

// Appends numbers to a list.
fn push_all(numbers: &[i128], list: &mut Nums) -> Result<(), NoMemory>
    ensures { OnOk result (list.new ≡ list.old ++ numbers.now) }
{
    for number in numbers {
        list.push(*number)?;
    }
    Ok(())
}
