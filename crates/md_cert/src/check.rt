//! The check of a certificate, condition by condition in their order.
ghost use Rattle.std.specs.Prelude.{◌≡◌, ◌-◌, ◌*ℤ◌, ◌↔◌, pos, IsNone, IfSome, IfNone, MatchOption};
ghost use Rattle.md_math.specs.Lists.{number_at};
ghost use Rattle.md_lp.specs.Point.{cost_sum, right_sum};
ghost use Rattle.md_cert.specs.Certified.{IsOptimalCertified, IsInfeasibleCertified, IsUnboundedCertified, Certified, Claims};
ghost use Rattle.md_cert.specs.Fault.{IsOptimalFault, IsInfeasibleFault, IsUnboundedFault, IsFirstFault, IsRightFault};
ghost use Rattle.md_cert.specs.Fitting.{FitsColumns, FitsRows, FitsBound, IsDenominator, Fits};
ghost use Rattle.md_cert.specs.declared.certificate.Certificate.{Certificate};

use crate::bound::Bound;
use crate::cert_fault::CertFault;
use crate::certificate::Certificate;
use crate::columns::{wrong_column, wrong_face_sum};
use crate::pairs::{WrongPair, wrong_face, wrong_pair};
use crate::points::broken_row;
use crate::rays::broken_ray;
use md_lp::Lp;
use md_num::{Frac, Nums};

/// The first condition of the certificate that fails for the program, or none where it is certified.
/// It takes no memory.
pub fn check_lp(lp: &Lp, certificate: &Certificate) -> Option<CertFault>
    requires { Fits lp.now certificate.now }
    ensures certified { IsNone result ↔ Certified lp.now certificate.now }
    ensures fault { IfSome result (IsFirstFault lp.now certificate.now) }

    // What is certified is so, over all points: their numbers and denominators have no bounds.
    ensures claims { IfNone result (Claims lp.now certificate.now) }
    ensures law { (c : Certificate) → Certified lp.now c → Claims lp.now c }
{
    match certificate {
        Certificate::Optimal { den, point, bound } => optimal_fault(lp, *den, point, bound),
        Certificate::Infeasible { face } => infeasible_fault(lp, face),
        Certificate::Unbounded { den, point, ray } => unbounded_fault(lp, *den, point, ray),
    }
}

// The first condition of a greatest point and its bound that fails.
fn optimal_fault(lp: &Lp, den: i128, point: &Nums, bound: &Bound) -> Option<CertFault>
    requires denominator { IsDenominator den }
    requires point { FitsColumns lp.now point.now }
    requires bound { FitsBound lp.now bound.now }
    ensures { MatchOption result (IsOptimalCertified lp.now den (number_at point.now) bound.now.den (number_at bound.now.main) (number_at bound.now.face)) (IsOptimalFault lp.now den (number_at point.now) bound.now.den (number_at bound.now.main) (number_at bound.now.face)) }
{
    if let Some(broken) = broken_row(lp, den, point) {
        return Some(CertFault::Point {
            row: broken.row,
            left: broken.left,
            right: broken.right,
        });
    }
    if let Some(WrongPair { place, face, main }) = wrong_pair(lp, &bound.face, &bound.main) {
        return Some(CertFault::Pair {
            row: place,
            face,
            main,
        });
    }
    if let Some(WrongPair { place, face, main }) = wrong_column(lp, bound) {
        return Some(CertFault::Column {
            column: place,
            face,
            main,
        });
    }
    right_fault(lp, den, point, bound)
}

// Whether the face multipliers times the right sides are not 0, or the bound is another number than the point's cost.
fn right_fault(lp: &Lp, den: i128, point: &Nums, bound: &Bound) -> Option<CertFault>
    requires denominator { IsDenominator den }
    requires point { FitsColumns lp.now point.now }
    requires bound { FitsBound lp.now bound.now }
    ensures { MatchOption result ((right_sum lp.now (number_at bound.now.face) ≡ pos 0) × (den *ℤ right_sum lp.now (number_at bound.now.main) ≡ bound.now.den *ℤ cost_sum lp.now (number_at point.now))) (IsRightFault lp.now den (number_at point.now) bound.now.den (number_at bound.now.main) (number_at bound.now.face)) }
{
    let sum = lp.right_sum(&bound.face);
    if sum != 0 {
        return Some(CertFault::FaceRight { sum });
    }
    let limit = Frac::reduced(lp.right_sum(&bound.main), bound.den);
    let cost = Frac::reduced(lp.cost_sum(point), den);
    if limit != cost {
        return Some(CertFault::MainRight { bound: limit, cost });
    }
    None
}

// The first condition of multipliers that leave no point that fails.
fn infeasible_fault(lp: &Lp, face: &Nums) -> Option<CertFault>
    requires { FitsRows lp.now face.now }
    ensures { MatchOption result (IsInfeasibleCertified lp.now (number_at face.now)) (IsInfeasibleFault lp.now (number_at face.now)) }
{
    if let Some(WrongPair { place, face, main }) = wrong_face(lp, face) {
        return Some(CertFault::Pair {
            row: place,
            face,
            main,
        });
    }
    if let Some(WrongPair { place, face, main }) = wrong_face_sum(lp, face) {
        return Some(CertFault::Column {
            column: place,
            face,
            main,
        });
    }
    let sum = lp.right_sum(face);
    if sum >= 0 {
        return Some(CertFault::FaceRight { sum });
    }
    None
}

// The first condition of a point and a ray that fails.
fn unbounded_fault(lp: &Lp, den: i128, point: &Nums, ray: &Nums) -> Option<CertFault>
    requires denominator { IsDenominator den }
    requires point { FitsColumns lp.now point.now }
    requires ray { FitsColumns lp.now ray.now }
    ensures { MatchOption result (IsUnboundedCertified lp.now den (number_at point.now) (number_at ray.now)) (IsUnboundedFault lp.now den (number_at point.now) (number_at ray.now)) }
{
    if let Some(broken) = broken_row(lp, den, point) {
        return Some(CertFault::Point {
            row: broken.row,
            left: broken.left,
            right: broken.right,
        });
    }
    if let Some(broken) = broken_ray(lp, ray) {
        return Some(CertFault::RayRow {
            row: broken.row,
            sum: broken.sum,
        });
    }
    let sum = lp.cost_sum(ray);
    if sum <= 0 {
        return Some(CertFault::RayGain { sum });
    }
    None
}
