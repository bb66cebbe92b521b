//! A certificate of a program, found by a walk and judged.
ghost use Rattle.std.specs.Prelude.{IfOk, IfSome};
ghost use Rattle.md_cert.specs.Certified.{Certified};
ghost use Rattle.md_cert.specs.Fitting.{Fits};

use crate::basis::Sides;
use crate::dictionary::Dictionary;
use crate::dual::{Repair, dual_walk};
use crate::find_error::FindError;
use crate::first_best::take_first_best;
use crate::judge::judged;
use crate::leap::leap;
use crate::reading::read;
use crate::start::first_dictionary;
use crate::walk::{End, walk};
use md_cert::Certificate;
use md_lp::Lp;
use md_num::NoMemory;
use std::alloc::Global;

/// Where a search begins.
#[derive(Clone, Copy)]
pub enum Start {
    /// Where the best outcome comes at each profile and all is paid. A dual walk repairs what is broken there.
    FirstBest,
    /// Where the term of this number is basic in each exact row. A walk betters it.
    Leap(u32),
    /// At the first basis.
    FirstBasis,
}

// The starts, in the order in which they are tried.
const STARTS: [Start; 5] = [
    Start::FirstBest,
    Start::Leap(0),
    Start::Leap(1),
    Start::Leap(2),
    Start::FirstBasis,
];

// How a walk from the first best ends.
fn repaired(alloc: Global, lp: &Lp, dictionary: &mut Dictionary) -> Result<End, FindError> {
    take_first_best(alloc, lp, dictionary)?;
    let main = dictionary.main();
    match dual_walk(alloc, dictionary, main)? {
        Repair::Feasible => Ok(End::Optimal),
        Repair::Infeasible(row) => Ok(End::Infeasible(row)),
    }
}

// How a walk from a leap ends.
fn bettered(
    alloc: Global,
    lp: &Lp,
    dictionary: &mut Dictionary,
    term: u32,
) -> Result<End, FindError> {
    match leap(alloc, lp, dictionary, term)? {
        Repair::Feasible => walk(alloc, dictionary),
        Repair::Infeasible(row) => Ok(End::Infeasible(row)),
    }
}

// The first basis of a start.
fn sides_of(start: Start) -> Sides {
    match start {
        Start::FirstBest => Sides::Kept,
        Start::Leap(_) | Start::FirstBasis => Sides::Turned,
    }
}

// What the walk from a start gives.
fn search(alloc: Global, lp: &Lp, start: Start) -> Result<Certificate, FindError> {
    let mut dictionary = first_dictionary(alloc, lp, sides_of(start))?;
    let end = match start {
        Start::FirstBest => repaired(alloc, lp, &mut dictionary)?,
        Start::Leap(term) => bettered(alloc, lp, &mut dictionary, term)?,
        Start::FirstBasis => walk(alloc, &mut dictionary)?,
    };
    read(alloc, lp, &dictionary, end)
}

/// A certificate of a program, if the walk from a start finds one. A walk makes 20,000 pivots at most, and is left where a number of a row has more than 126 bits or one of the certificate more than 62. What is found is judged by what a certificate has to show, and given back only where it shows it.
///
/// # Errors
/// Why the walk finds none, or want of memory.
pub fn find_by(alloc: Global, lp: &Lp, start: Start) -> Result<Certificate, FindError>
    ensures certified { IfOk result (Certified lp.now) }
    ensures fits { IfOk result (Fits lp.now) }
{
    let certificate = search(alloc, lp, start)?;
    judged(lp, certificate)
}

/// A certificate of a program, if one is found: by the walk from the first best, or else from where one term of each exact row is basic, the first, the second or the third, or else from the first basis. A walk makes 20,000 pivots at most, and is left where a number of a row has more than 126 bits or one of the certificate more than 62. What is found is judged by what a certificate has to show, and given back only where it shows it.
pub fn find_certificate(alloc: Global, lp: &Lp) -> Result<Option<Certificate>, NoMemory>
    ensures certified { IfOk result (λ found. IfSome found (Certified lp.now)) }
    ensures fits { IfOk result (λ found. IfSome found (Fits lp.now)) }
{
    for start in STARTS {
        match find_by(alloc, lp, start) {
            Ok(certificate) => return Ok(Some(certificate)),
            Err(FindError::Memory) => return Err(NoMemory),
            Err(_) => {}
        }
    }
    Ok(None)
}
