//! A certificate of a program, from a basis or by a search.
ghost use Rattle.std.specs.Prelude.{IfOk, IfSome};
ghost use Rattle.md_cert.specs.Certified.{Certified};
ghost use Rattle.md_cert.specs.Fitting.{Fits};

use crate::basis::Basis;
use crate::end::find_at;
use md_cert::Certificate;
use md_find::{FindError, find_certificate};
use md_lp::Lp;
use md_num::NoMemory;
use std::alloc::Global;

/// A certificate of a program, if one is found: that of a basis, where there is one and it gives one, or else by the walks of `find_certificate`.
pub fn find_from(
    alloc: Global,
    lp: &Lp,
    basis: Option<&Basis>,
) -> Result<Option<Certificate>, NoMemory>
    ensures certified { IfOk result (λ found. IfSome found (Certified lp.now)) }
    ensures fits { IfOk result (λ found. IfSome found (Fits lp.now)) }
{
    if let Some(basis) = basis {
        match find_at(alloc, lp, basis.columns(), basis.slacks()) {
            Ok(certificate) => return Ok(Some(certificate)),
            Err(FindError::Memory) => return Err(NoMemory),
            Err(_) => {}
        }
    }
    find_certificate(alloc, lp)
}
