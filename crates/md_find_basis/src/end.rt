//! The certificate that a basis gives.
ghost use Rattle.std.specs.Prelude.{IfOk};
ghost use Rattle.md_cert.specs.Certified.{Certified};
ghost use Rattle.md_cert.specs.Fitting.{Fits};

use crate::equations::Equations;
use crate::solution::solve;
use md_cert::{Bound, Certificate};
use md_find::{FindError, judged};
use md_lp::Lp;
use std::alloc::Global;

// The point of a basis, and its multipliers.
fn certificate_at(alloc: Global, lp: &Lp, equations: &Equations) -> Result<Certificate, FindError> {
    let matrix = equations.matrix(alloc, lp)?;
    let point = solve(alloc, &matrix, equations.right_sides(alloc, lp)?)?;
    let bound = solve(alloc, &matrix.turned(alloc)?, equations.costs(alloc, lp)?)?;
    Ok(Certificate::Optimal {
        den: point.den,
        point: equations.point(alloc, lp, point.numbers.as_slice())?,
        bound: Bound {
            den: bound.den,
            main: equations.multipliers(alloc, lp, bound.numbers.as_slice())?,
            face: equations.multipliers(alloc, lp, &[])?,
        },
    })
}

/// The certificate that a basis of a program gives where it has the greatest cost: its columns are some of the program, and the slacks of some rows, or of exact rows start columns. What is worked out is judged by what a certificate has to show, and given back only where it shows it.
///
/// # Errors
/// Where the basis has not as many columns as there are rows, or they depend on each other; where a number of the certificate has more than 62 bits; where it does not show what it claims; or want of memory.
pub fn find_at(
    alloc: Global,
    lp: &Lp,
    columns: &[u32],
    slacks: &[u32],
) -> Result<Certificate, FindError>
    ensures certified { IfOk result (Certified lp.now) }
    ensures fits { IfOk result (Fits lp.now) }
{
    let equations = Equations::new(alloc, lp, columns, slacks)?;
    if !equations.is_square() {
        return Err(FindError::Singular);
    }
    judged(lp, certificate_at(alloc, lp, &equations)?)
}
