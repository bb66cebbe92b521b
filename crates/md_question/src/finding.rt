//! What is found.
use md_cert::Bound;
use md_mech::Mechanism;
use md_num::{Frac, Nums};

/// The best mechanism by a question, or why there is none.
#[derive(Drop)]
pub enum Finding {
    /// A mechanism with its value, and multipliers of the rows of the question's program that show that none is better.
    Optimal {
        value: Frac,
        mechanism: Mechanism,
        bound: Bound,
    },
    /// Multipliers of the rows of the question's program that show that no mechanism is admitted.
    Infeasible {
        face: Nums,
    },
    /// A mechanism, and payments that may be added to it again and again, with a gain each time: by the rank of the profile,
    /// then by agent; all 0 where payments are off.
    Unbounded {
        mechanism: Mechanism,
        ray: Nums,
    },
}
