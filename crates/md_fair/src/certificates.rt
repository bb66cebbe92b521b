//! Certificates of the setting's program as those of the fair program.
ghost use Rattle.std.specs.Prelude.{◌≡◌, IfOk, OnOk};
ghost use Rattle.md_math.specs.Sizes.{IsWithin};
ghost use Rattle.md_mech.specs.Accepted.{number_limit};
ghost use Rattle.md_fair.specs.FairPoints.{leveled, with_level};

use md_cert::Certificate;
use md_num::{NoMemory, Nums};

/// The certificate with a level behind the numbers of its point, and 1 behind those of its ray.
pub(crate) fn with_level(certificate: Certificate, level: i128) -> Result<Certificate, NoMemory>
    requires { IsWithin number_limit level }
    ensures { IfOk result (λ new. new ≡ leveled certificate level) }
{
    match certificate {
        Certificate::Optimal {
            den,
            mut point,
            bound,
        } => {
            push_level(&mut point, level)?;
            Ok(Certificate::Optimal { den, point, bound })
        }
        Certificate::Infeasible { face } => Ok(Certificate::Infeasible { face }),
        Certificate::Unbounded {
            den,
            mut point,
            mut ray,
        } => {
            push_level(&mut point, level)?;
            push_level(&mut ray, 1)?;
            Ok(Certificate::Unbounded { den, point, ray })
        }
    }
}

// Appends the two parts of a level.
fn push_level(numbers: &mut Nums, level: i128) -> Result<(), NoMemory>
    requires { IsWithin number_limit level }
    ensures { OnOk result (numbers.new ≡ with_level numbers.old level) }
{
    numbers.push(level.max(0))?;
    numbers.push((-level).max(0))
}
