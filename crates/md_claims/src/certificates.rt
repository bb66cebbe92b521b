//! The certificates that answers about a setting state.
ghost use Rattle.std.specs.Prelude.{◌≡◌, IfOk};
ghost use Rattle.md_mech.specs.Accepted.{IsAccepted};
ghost use Rattle.md_parts.specs.Fitting.{IsRayFor};
ghost use Rattle.md_cert.specs.declared.certificate.Certificate.TheVariants.{Infeasible};
ghost use Rattle.md_claims.specs.Rays.{ray_of};
ghost use Rattle.md_claims.specs.Certificates.{optimal_certificate, unbounded_certificate};

use crate::lists::{copy_bound, without_first};
use md_cert::{Bound, Certificate};
use md_mech::Mechanism;
use md_num::{NoMemory, Nums};
use md_rows::point_of;
use md_setting::Setting;
use std::alloc::Global;

/// The point of a mechanism with multipliers.
pub fn optimal_certificate(
    alloc: Global,
    setting: &Setting,
    mechanism: &Mechanism,
    bound: &Bound,
) -> Result<Certificate, NoMemory>
    requires { IsAccepted setting.now mechanism.now }
    ensures { IfOk result (λ certificate. certificate ≡ optimal_certificate setting.now mechanism.now bound.now) }
{
    Ok(Certificate::Optimal {
        den: mechanism.den,
        point: point_of(alloc, setting, mechanism)?,
        bound: copy_bound(alloc, bound)?,
    })
}

/// Multipliers that leave no point.
pub fn infeasible_certificate(alloc: Global, face: &Nums) -> Result<Certificate, NoMemory>
    ensures { IfOk result (λ certificate. certificate ≡ Infeasible face.now) }
{
    Ok(Certificate::Infeasible {
        face: Nums::from_slice(alloc, face.as_slice())?,
    })
}

/// The point of a mechanism with the ray of the payments that are added.
pub fn unbounded_certificate(
    alloc: Global,
    setting: &Setting,
    mechanism: &Mechanism,
    ray: &Nums,
) -> Result<Certificate, NoMemory>
    requires accepted { IsAccepted setting.now mechanism.now }
    requires ray { IsRayFor setting.now ray.now }
    ensures { IfOk result (λ certificate. certificate ≡ unbounded_certificate setting.now mechanism.now ray.now) }
{
    Ok(Certificate::Unbounded {
        den: mechanism.den,
        point: point_of(alloc, setting, mechanism)?,
        ray: ray_of(alloc, setting, mechanism, ray)?,
    })
}

// The ray of payments: the point of the mechanism that has them as its payments, with 0 at each chance.
fn ray_of(
    alloc: Global,
    setting: &Setting,
    mechanism: &Mechanism,
    ray: &Nums,
) -> Result<Nums, NoMemory>
    requires accepted { IsAccepted setting.now mechanism.now }
    requires ray { IsRayFor setting.now ray.now }
    ensures { IfOk result (λ list. list ≡ ray_of setting.now ray.now) }
{
    let paying = with_pays(alloc, mechanism, ray)?;
    let point = point_of(alloc, setting, &paying)?;
    without_first(alloc, mechanism.chances.len(), &point)
}

// The mechanism with other payments.
fn with_pays(alloc: Global, mechanism: &Mechanism, pays: &Nums) -> Result<Mechanism, NoMemory>
    ensures { IfOk result (λ new. new ≡ record mechanism.now { pays = pays.now }) }
{
    Ok(Mechanism {
        den: mechanism.den,
        chances: Nums::from_slice(alloc, mechanism.chances.as_slice())?,
        pays: Nums::from_slice(alloc, pays.as_slice())?,
    })
}
