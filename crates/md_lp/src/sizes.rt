//! Which numbers a program may have.
ghost use Rattle.std.specs.Prelude.{◌≡◌, ◌^◌, ◌↔◌, ◌∷◌, map, IsTrue, All};
ghost use Rattle.md_math.specs.Sizes.{IsWithin, AllWithin};

use crate::term::Term;
use md_num::Nums;

// The greatest size of a number of a program: 2^44.
const GREATEST_SIZE: u128 = 17_592_186_044_416;

// Whether a number may stand in a program.
pub fn is_small(x: i128) -> bool
    ensures { IsTrue result ↔ IsWithin (2 ^ 44) x }
{
    x.unsigned_abs() <= GREATEST_SIZE
}

// Whether the values of all terms may stand in a program.
fn values_are_small(terms: &[Term]) -> bool
    ensures { IsTrue result ↔ All (λ term. IsWithin (2 ^ 44) term.value) terms.now }
{
    terms.iter().all(|term| is_small(term.value))
}

// Whether the right side and the values of all terms may stand in a program.
pub fn row_is_small(terms: &[Term], right: i128) -> bool
    ensures { IsTrue result ↔ AllWithin (2 ^ 44) (right ∷ map (λ term. term.value) terms.now) }
{
    is_small(right) && values_are_small(terms)
}

// Whether all numbers of a cost may stand in a program.
pub fn cost_is_small(cost: &Nums) -> bool
    ensures { IsTrue result ↔ AllWithin (2 ^ 44) cost.now }
{
    cost.as_slice().iter().all(|number| is_small(*number))
}
