//! Why a text of records is refused.
ghost use Rattle.std.specs.Prelude.{◌≡◌};
ghost use Rattle.md_parts.specs.declared.refusal.AnswerRefusal.TheVariants.{Memory};

use md_num::NoMemory;
use std::alloc::AllocError;
use thiserror::Error;

/// The first reason for which an answer file is refused. Records and fields are counted from 1.
#[derive(Clone, Copy, Debug, Error)]
pub enum AnswerRefusal {
    /// The record begins with a word that may not stand there, has another number of fields, or follows the end.
    #[error("line {0}: record")]
    Line(u64),
    /// The field of the record is no number, is out of range, or is another word or name than must stand there.
    #[error("line {0}: field {1}")]
    Cell(u64, u64),
    /// The numbers of the record do not add to what they must.
    #[error("line {0}: sum")]
    Sum(u64),
    /// So many records were read, and no end stood among them.
    #[error("line {0}: ended")]
    End(u64),
    /// There is no memory left.
    #[error("want of memory")]
    Memory,
}

impl From<NoMemory> for AnswerRefusal {
    ghost from_gives = { λ _ e. e ≡ Memory };

    fn from(_: NoMemory) -> Self {
        AnswerRefusal::Memory
    }
}

impl From<AllocError> for AnswerRefusal {
    ghost from_gives = { λ _ e. e ≡ Memory };

    fn from(_: AllocError) -> Self {
        AnswerRefusal::Memory
    }
}
