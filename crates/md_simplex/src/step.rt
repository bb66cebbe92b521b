//! What the rules say of a dictionary.
use md_lp::Pivot;

/// What the rules say of a dictionary: the next pivot, or how the path ends.
#[derive(Clone, Copy)]
pub enum Step {
    /// The column enters and the row leaves.
    Pivot(Pivot),
    /// No point meets the program.
    Infeasible,
    /// The point of the dictionary has the greatest cost.
    Optimal,
    /// This column may grow without end.
    Unbounded(u32),
}
