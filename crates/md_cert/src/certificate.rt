//! Certificates of a linear program.
use crate::bound::Bound;
use md_num::Nums;

/// What shows how a program ends: numbers that anyone can check.
#[derive(Drop)]
pub enum Certificate {
    /// The point, over `den`, meets the program, and the bound shows that no point has a greater cost.
    Optimal {
        den: i128,
        point: Nums,
        bound: Bound,
    },
    /// The multipliers of the rows show that no point meets the program.
    Infeasible {
        face: Nums,
    },
    /// The point, over `den`, meets the program, and so it does however often the ray is added.
    Unbounded {
        den: i128,
        point: Nums,
        ray: Nums,
    },
}
