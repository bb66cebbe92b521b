//! What is read off the last dictionary of a program's taken path.
use md_cert::Bound;
use md_mech::Mechanism;
use md_num::Nums;

/// What a program whose points are mechanisms has: a best point, none, or a point and a ray without end.
#[derive(Drop)]
pub enum Reading {
    /// The mechanism of the best point, with multipliers of the program's rows.
    Optimal { mechanism: Mechanism, bound: Bound },
    /// Multipliers of the program's rows that show that no point meets it.
    Infeasible { face: Nums },
    /// The mechanism of a point, and the payments of a ray.
    Unbounded { mechanism: Mechanism, ray: Nums },
}
