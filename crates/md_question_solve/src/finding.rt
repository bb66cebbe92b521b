//! What a question finds, on its paths or off them.
ghost use Rattle.std.specs.Prelude.{◌≡◌, IfErr, IfOk};
ghost use Rattle.md_cert.specs.Certified.{Certified};
ghost use Rattle.md_cert.specs.Fitting.{Fits};
ghost use Rattle.md_lp.specs.Program.{Program};
ghost use Rattle.md_simplex.specs.Runs.{IsLeft};
ghost use Rattle.md_question.specs.Certified.{IsCertifiedFinding};
ghost use Rattle.md_question.specs.Findings.{WhereOptimal};
ghost use Rattle.md_question.specs.Question.{IsProgramFor};
ghost use Rattle.md_question_solve.specs.Found.{IsLeftFor, IsOfPoint};
ghost use Rattle.md_question_solve.specs.Readings.{IsOfBestPoint};

use crate::read::told;
use crate::solving::{found, with_value};
use md_cert::Certificate;
use md_find_basis::{Basis, find_from};
use md_lp::Lp;
use md_num::{NoMemory, Width};
use md_question::{Asks, Finding};
use md_simplex::SimplexError;
use std::alloc::Global;

/// Finds what a question asks for: by a basis that is given, where it tells; by a walk that need not be one of the two stated paths,
/// with numbers that may be wider than theirs; or else by a path of its program. Which of several best mechanisms is found is not said.
///
/// # Errors
/// Where the basis and the walk tell nothing and a basis of each of the two paths of the program is too wide at 62 bits, the pivots to the
/// first such one and its first such entry, for each; or want of memory.
pub fn find_question<Q: Asks>(
    alloc: Global,
    question: &Q,
    basis: Option<&Basis>,
) -> Result<Finding, SimplexError>
    ensures certified { IfOk result (IsCertifiedFinding (Q.asked question.now)) }
    ensures of_point { IfOk result (WhereOptimal (λ value mechanism bound. IsOfPoint (Q.asked question.now) mechanism)) }

    // Only where both paths are too wide nothing is found, in whatever terms the program is written.
    ensures left { IfErr result (IsLeftFor (Q.asked question.now) 62) }
    ensures every_left { (p : Program) → IsProgramFor (Q.asked question.now) p → IfErr result (IsLeft p 62) }
{
    let Ok(lp) = question.program(alloc) else {
        return Err(SimplexError::Memory);
    };
    by_program(alloc, question, &lp, basis)
}

// What is found by a program of the question: off its paths, or else on them.
fn by_program<Q: Asks>(
    alloc: Global,
    question: &Q,
    lp: &Lp,
    basis: Option<&Basis>,
) -> Result<Finding, SimplexError>
    requires { IsProgramFor (Q.asked question.now) lp.now }
    ensures finding { IfOk result (IsCertifiedFinding (Q.asked question.now)) }
    ensures of_point { IfOk result (WhereOptimal (λ value mechanism bound. IsOfBestPoint (Q.asked question.now).setting lp.now mechanism)) }
    ensures left { IfErr result (IsLeft lp.now 62) }
{
    match find_from(alloc, lp, basis) {
        Ok(Some(certificate)) => certified(alloc, question, lp, certificate),
        Ok(None) => on_paths(alloc, question, lp),
        Err(NoMemory) => Err(SimplexError::Memory),
    }
}

// What a certificate of the question's program tells.
fn certified<Q: Asks>(
    alloc: Global,
    question: &Q,
    lp: &Lp,
    certificate: Certificate,
) -> Result<Finding, SimplexError>
    requires program { IsProgramFor (Q.asked question.now) lp.now }
    requires certified { Certified lp.now certificate }
    requires fits { Fits lp.now certificate }
    ensures finding { IfOk result (IsCertifiedFinding (Q.asked question.now)) }
    ensures of_point { IfOk result (WhereOptimal (λ value mechanism bound. IsOfBestPoint (Q.asked question.now).setting lp.now mechanism)) }
    ensures left { IfErr result (IsLeft lp.now 62) }
{
    match told(alloc, question.setting(), lp, certificate) {
        Ok(reading) => Ok(with_value(question, reading)),
        Err(NoMemory) => Err(SimplexError::Memory),
    }
}

// What the paths of the question's program give.
fn on_paths<Q: Asks>(alloc: Global, question: &Q, lp: &Lp) -> Result<Finding, SimplexError>
    requires { IsProgramFor (Q.asked question.now) lp.now }
    ensures finding { IfOk result (IsCertifiedFinding (Q.asked question.now)) }
    ensures of_point { IfOk result (WhereOptimal (λ value mechanism bound. IsOfBestPoint (Q.asked question.now).setting lp.now mechanism)) }
    ensures left { IfErr result (IsLeft lp.now 62) }
{
    found(alloc, question, lp, greatest_width())
}

// The greatest width.
fn greatest_width() -> Width
    ensures { result ≡ 62 }
{
    match Width::new(62) {
        Some(width) => width,
        None => unreachable!(),
    }
}
