//! Whether a certificate that was found is valid.
ghost use Rattle.std.specs.Prelude.{◌-◌, ◌^◌, ◌≤ℤ◌, ◌↔◌, All, IfOk, IsTrue, pos};
ghost use Rattle.md_math.specs.Sizes.{AllWithin, IsWithin};
ghost use Rattle.md_cert.specs.Certified.{Certified};
ghost use Rattle.md_cert.specs.Fitting.{Fits, FitsBound, FitsColumns, FitsRows, IsDenominator};

use crate::find_error::FindError;
use crate::fraction::GREATEST;
use md_cert::{Bound, Certificate, check_lp};
use md_lp::Lp;
use md_num::Nums;

// Whether a number may stand in a certificate.
fn is_small(number: i128) -> bool
    ensures { IsTrue result ↔ IsWithin (2 ^ 62 - 1) number }
{
    number.unsigned_abs() <= GREATEST
}

// Whether all numbers may stand in a certificate.
fn are_small(numbers: &Nums) -> bool
    ensures { IsTrue result ↔ AllWithin (2 ^ 62 - 1) numbers.now }
{
    numbers.as_slice().iter().all(|number| is_small(*number))
}

// Whether a number is not negative.
fn is_nonneg(number: i128) -> bool
    ensures { IsTrue result ↔ (pos 0 ≤ℤ number) }
{
    number >= 0
}

// Whether no number is negative.
fn are_nonneg(numbers: &Nums) -> bool
    ensures { IsTrue result ↔ All (λ number. pos 0 ≤ℤ number) numbers.now }
{
    numbers.as_slice().iter().all(|number| is_nonneg(*number))
}

// Whether a number may be a denominator.
fn is_denominator(den: i128) -> bool
    ensures { IsTrue result → IsDenominator den }
{
    if den <= 0 {
        return false;
    }
    is_small(den)
}

// Whether the numbers may be those of a point or of a ray.
#[tactic(auto, using(crate::proofs::Columns::fits_from))]
fn fits_columns(lp: &Lp, numbers: &Nums) -> bool
    ensures { IsTrue result → FitsColumns lp.now numbers.now }
{
    if numbers.len() != lp.columns() as usize {
        return false;
    }
    if !are_small(numbers) {
        return false;
    }
    are_nonneg(numbers)
}

// Whether the numbers may be multipliers.
fn fits_rows(lp: &Lp, numbers: &Nums) -> bool
    ensures { IsTrue result → FitsRows lp.now numbers.now }
{
    if numbers.len() != lp.rows() as usize {
        return false;
    }
    are_small(numbers)
}

// Whether the numbers may be those of a bound.
fn fits_bound(lp: &Lp, bound: &Bound) -> bool
    ensures { IsTrue result → FitsBound lp.now bound.now }
{
    if !is_denominator(bound.den) {
        return false;
    }
    if !fits_rows(lp, &bound.main) {
        return false;
    }
    fits_rows(lp, &bound.face)
}

// Whether the numbers may be those of a greatest point and its bound.
fn fits_optimal(lp: &Lp, den: i128, point: &Nums, bound: &Bound) -> bool
    ensures { IsTrue result → IsDenominator den × FitsColumns lp.now point.now × FitsBound lp.now bound.now }
{
    if !is_denominator(den) {
        return false;
    }
    if !fits_columns(lp, point) {
        return false;
    }
    fits_bound(lp, bound)
}

// Whether the numbers may be those of a point and a ray.
fn fits_unbounded(lp: &Lp, den: i128, point: &Nums, ray: &Nums) -> bool
    ensures { IsTrue result → IsDenominator den × FitsColumns lp.now point.now × FitsColumns lp.now ray.now }
{
    if !is_denominator(den) {
        return false;
    }
    if !fits_columns(lp, point) {
        return false;
    }
    fits_columns(lp, ray)
}

// Whether the numbers may be those of a certificate.
fn fits(lp: &Lp, certificate: &Certificate) -> bool
    ensures { IsTrue result → Fits lp.now certificate.now }
{
    match certificate {
        Certificate::Optimal { den, point, bound } => fits_optimal(lp, *den, point, bound),
        Certificate::Infeasible { face } => fits_rows(lp, face),
        Certificate::Unbounded { den, point, ray } => fits_unbounded(lp, *den, point, ray),
    }
}

// Whether a certificate shows what it claims of a program.
fn is_certified(lp: &Lp, certificate: &Certificate) -> bool
    ensures certified { IsTrue result → Certified lp.now certificate.now }
    ensures fits { IsTrue result → Fits lp.now certificate.now }
{
    if !fits(lp, certificate) {
        return false;
    }
    check_lp(lp, certificate).is_none()
}

/// A certificate that was found, where it shows what it claims of a program.
///
/// # Errors
/// Where it does not.
pub fn judged(lp: &Lp, certificate: Certificate) -> Result<Certificate, FindError>
    ensures certified { IfOk result (Certified lp.now) }
    ensures fits { IfOk result (Fits lp.now) }
{
    if is_certified(lp, &certificate) {
        Ok(certificate)
    } else {
        Err(FindError::NotValid)
    }
}
