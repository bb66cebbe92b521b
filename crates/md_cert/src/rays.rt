//! The rows of a program along a ray, and the first that it breaks.
ghost use Rattle.std.specs.Prelude.{◌≡◌, MatchOption};
ghost use Rattle.md_math.specs.Lists.{number_at};
ghost use Rattle.md_cert.specs.Fault.{BreaksRay, HasRays};
ghost use Rattle.md_cert.specs.Fitting.{FitsColumns};

use crate::signs::ray_keeps;
use md_lp::Lp;
use md_num::Nums;

// A row that a ray breaks.
#[derive(Clone, Copy)]
pub struct RayRow {
    pub row: u32,
    pub sum: i128,
}

// The first row that the ray breaks.
pub fn broken_ray(lp: &Lp, ray: &Nums) -> Option<RayRow>
    requires { FitsColumns lp.now ray.now }
    ensures { MatchOption result (HasRays lp.now (number_at ray.now)) (λ broken. BreaksRay lp.now (number_at ray.now) broken.row broken.sum) }
{
    for row in 0..lp.rows() {
        let sum = lp.row_sum(row, ray);
        if !ray_keeps(lp.kind(row), sum) {
            return Some(RayRow { row, sum });
        }
    }
    None
}
