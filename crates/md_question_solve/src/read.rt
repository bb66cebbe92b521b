//! What is read off the taken path of a program.
ghost use Rattle.std.specs.Prelude.{◌≡◌, IfErr, IfOk};
ghost use Rattle.md_math.specs.Lists.{number_at};
ghost use Rattle.md_lp.specs.Point.{Meets};
ghost use Rattle.md_lp.specs.Program.{row_count};
ghost use Rattle.md_mech.specs.Accepted.{IsAccepted};
ghost use Rattle.md_cert.specs.Certified.{Certified};
ghost use Rattle.md_cert.specs.Fitting.{Fits, FitsColumns, IsDenominator};
ghost use Rattle.md_cert.specs.declared.certificate.Certificate.{Certificate};
ghost use Rattle.md_rows.specs.Points.{mechanism_of};
ghost use Rattle.md_simplex.specs.Runs.{IsLeft};
ghost use Rattle.md_question_solve.specs.Readings.{FitsReading, HasFractions, HasOwnPoints, IsOfBestPoint, TellsCertificate, TellsRun, WhereBest};

use crate::reading::Reading;
use md_cert::{Bound, Certificate};
use md_lp::Lp;
use md_mech::Mechanism;
use md_num::{NoMemory, Nums, Width};
use md_rows::{mechanism_of, payments_of};
use md_setting::Setting;
use md_simplex::{SimplexError, run};
use std::alloc::Global;

/// What is read off the taken path of a program whose points are mechanisms of a setting.
///
/// # Errors
/// Where a basis of each of the two paths of the program is too wide, the pivots to the first such one and its first such
/// entry, for each; or want of memory.
pub fn read_program(
    alloc: Global,
    setting: &Setting,
    lp: &Lp,
    width: Width,
) -> Result<Reading, SimplexError>
    requires { HasOwnPoints setting.now lp.now }
    ensures read { IfOk result (TellsRun setting.now lp.now width) }
    ensures fits { IfOk result (FitsReading setting.now (row_count lp.now)) }
    ensures of_point { IfOk result (WhereBest (IsOfBestPoint setting.now lp.now)) }
    ensures left { IfErr result (IsLeft lp.now width) }
    ensures wide_writable { IfErr result HasFractions }
{
    let _shaped = lp.rows();
    let _range = width.limit();
    match run(alloc, lp, width) {
        Ok(end) => match told(alloc, setting, lp, end.certificate) {
            Ok(reading) => Ok(reading),
            Err(NoMemory) => Err(SimplexError::Memory),
        },
        Err(error) => Err(error),
    }
}

/// The reading that tells a certificate of the program.
pub(crate) fn told(
    alloc: Global,
    setting: &Setting,
    lp: &Lp,
    certificate: Certificate,
) -> Result<Reading, NoMemory>
    requires program { HasOwnPoints setting.now lp.now }
    requires certified { Certified lp.now certificate }
    requires fits { Fits lp.now certificate }
    ensures tells { IfOk result (TellsCertificate setting.now certificate) }
    ensures fits { IfOk result (FitsReading setting.now (row_count lp.now)) }
{
    match certificate {
        Certificate::Optimal { den, point, bound } => {
            optimal(alloc, setting, lp, den, &point, bound)
        }
        Certificate::Infeasible { face } => Ok(Reading::Infeasible { face }),
        Certificate::Unbounded { den, point, ray } => {
            unbounded(alloc, setting, lp, den, &point, &ray)
        }
    }
}

// The mechanism of a best point, with its bound.
fn optimal(
    alloc: Global,
    setting: &Setting,
    lp: &Lp,
    den: i128,
    point: &Nums,
    bound: Bound,
) -> Result<Reading, NoMemory>
    requires program { HasOwnPoints setting.now lp.now }
    requires certified { Certified lp.now (Certificate.Optimal den point.now bound) }
    requires fits { Fits lp.now (Certificate.Optimal den point.now bound) }
    ensures tells { IfOk result (TellsCertificate setting.now (Certificate.Optimal den point.now bound)) }
    ensures fits { IfOk result (FitsReading setting.now (row_count lp.now)) }
{
    Ok(Reading::Optimal {
        mechanism: mechanism(alloc, setting, lp, den, point)?,
        bound,
    })
}

// The mechanism of a point, and the payments of a ray.
fn unbounded(
    alloc: Global,
    setting: &Setting,
    lp: &Lp,
    den: i128,
    point: &Nums,
    ray: &Nums,
) -> Result<Reading, NoMemory>
    requires program { HasOwnPoints setting.now lp.now }
    requires certified { Certified lp.now (Certificate.Unbounded den point.now ray.now) }
    requires fits { Fits lp.now (Certificate.Unbounded den point.now ray.now) }
    ensures tells { IfOk result (TellsCertificate setting.now (Certificate.Unbounded den point.now ray.now)) }
    ensures fits { IfOk result (FitsReading setting.now (row_count lp.now)) }
{
    Ok(Reading::Unbounded {
        mechanism: mechanism(alloc, setting, lp, den, point)?,
        ray: payments_of(alloc, setting, ray)?,
    })
}

// The mechanism of a point that meets the program.
fn mechanism(
    alloc: Global,
    setting: &Setting,
    lp: &Lp,
    den: i128,
    point: &Nums,
) -> Result<Mechanism, NoMemory>
    requires program { HasOwnPoints setting.now lp.now }
    requires meets { Meets lp.now den (number_at point.now) }
    requires den_fits { IsDenominator den }
    requires point_fits { FitsColumns lp.now point.now }
    ensures value { IfOk result (λ mechanism. mechanism ≡ mechanism_of setting.now den (number_at point.now)) }
    ensures accepted { IfOk result (IsAccepted setting.now) }
{
    let _columns = lp.columns();
    mechanism_of(alloc, setting, den, point)
}
