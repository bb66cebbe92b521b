//! Texts that are kept.
ghost use Rattle.std.specs.Prelude.{◌≡◌, IfOk};

use md_num::NoMemory;
use std::alloc::Global;
use std::marker::Model;

/// The text of a second file, as it was read.
#[derive(Drop)]
pub struct AnswerText {
    bytes: Vec<u8>,
}

impl Model for AnswerText {
    ghost use Rattle.std.specs.Prelude.{ℕ, List};

    ghost Value = { List ℕ };

    ghost view = { λ text. text.bytes.items };
}

impl AnswerText {
    /// A copy of a text.
    pub fn copy(alloc: Global, bytes: &[u8]) -> Result<AnswerText, NoMemory>
        ensures { IfOk result (λ text. text ≡ bytes.now) }
    {
        Ok(AnswerText {
            bytes: bytes.to_vec(alloc)?,
        })
    }

    /// The bytes of the text.
    pub fn bytes(&self) -> &[u8]
        ensures { result.now ≡ self.now }
    {
        self.bytes.as_slice()
    }
}
