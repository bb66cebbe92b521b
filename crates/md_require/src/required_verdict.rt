//! What a check of an answer about the best mechanism that meets conditions finds.
use md_num::Frac;
use md_question_check::Reject;

/// The verdict on an answer that tells the shadows of its conditions.
#[derive(Clone, Copy)]
pub enum RequiredVerdict {
    /// All conditions of the answer hold, and its shadows are right, so that what it claims is so.
    Valid,
    /// The first condition of the answer that fails.
    Rejected { reject: Reject },
    /// The conditions of what was found hold, and the shadow of this condition, counted from 0, is the first that is told otherwise
    /// than the multipliers say: the right one, in least terms, or none where none is to be told.
    Shadow { index: u32, right: Option<Frac> },
}
